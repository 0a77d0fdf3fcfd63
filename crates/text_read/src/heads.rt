// The fixed texts of books, listings and sheets: what is read is matched with these, and what is written is written with these.
pub const SPACE: [u8; 1] = *b" ";

pub const LINE_END: [u8; 2] = *b")\n";

// A book, and its lines.
pub const BOOK: [u8; 6] = *b"(book\n";

pub const PLAYERS: [u8; 9] = *b"(players ";

pub const FEE: [u8; 5] = *b"(fee ";

pub const MOVE: [u8; 6] = *b"(move ";

pub const ENTRY: [u8; 13] = *b"(entry (name ";

pub const NAME_END: [u8; 2] = *b") ";

// The lines of a listing.
pub const COST: [u8; 6] = *b"(cost ";

pub const WAY: [u8; 12] = *b"(way (parts ";

pub const PARTS_END: [u8; 1] = *b")";

pub const END: [u8; 5] = *b"(end ";

pub const REFUSED: [u8; 9] = *b"(refused ";

// The lines of a sheet.
pub const PART: [u8; 6] = *b"(part ";

pub const PLAY: [u8; 12] = *b"(play (name ";

pub const GAP: [u8; 5] = *b"(gap ";

pub const NEWLINE: [u8; 1] = *b"\n";
