// Readers of text. Each reads what stands at the front of `rest`, and answers its value and the bytes that follow it; `None`, if it is not there.
#![tactic(auto)]

pub mod heads;

ghost use Rattle.std.specs.Prelude.{◌≡◌, ◌<◌, length};
ghost use Rattle.std.specs.List.{prefix_len};
ghost use Rattle.text_read.specs.Reader.{plain, short, word_byte, text, number, word, numbers, row, ReadsFront, NumbersRead};

// What follows the bytes of `head`.
pub fn read_text<'a>(rest: &'a [u8], head: &[u8]) -> Option<&'a [u8]>
    requires { 0 < length head.now }
    ensures { ReadsFront rest.now (text head.now rest.now) result (λ after. tt) (λ after. after.now) }
{
    rest.strip_prefix(head)
}

fn is_plain(digits: &[u8]) -> bool
    ensures { result ≡ plain digits.now }
{
    1 <= digits.len() && digits.len() <= 7 && (digits.len() <= 1 || digits[0] != b'0')
}

// A number of 1 to 7 digits without a needless leading 0. One pass reads the digits and their value: a pass for each was slower.
fn read_number(rest: &[u8]) -> Option<(u32, &[u8])>
    ensures { ReadsFront rest.now (number rest.now) result (λ r. r.0) (λ r. r.1.now) }
{
    let mut value: u32 = 0;
    let mut length = 0;
    for b in rest {
        if !b.is_ascii_digit() {
            break;
        }
        if length == 8 {
            break;
        }
        value = value * 10 + u32::from(*b - b'0');
        length += 1;
    }
    let (digits, after) = rest.split_at(length);
    if is_plain(digits) {
        Some((value, after))
    } else {
        None
    }
}

fn is_word_byte(b: u8) -> bool
    ensures { result ≡ word_byte b }
{
    b.is_ascii_digit() | b.is_ascii_lowercase()
}

fn count_word_bytes(rest: &[u8]) -> usize
    ensures { result ≡ prefix_len word_byte rest.now }
{
    rest.iter().take_while(|b| is_word_byte(**b)).count()
}

fn is_short(word: &[u8]) -> bool
    ensures { result ≡ short word.now }
{
    1 <= word.len() && word.len() <= 16
}

// A word of 1 to 16 letters and digits. Of a longer run no more than 17 are looked at.
pub fn read_word(rest: &[u8]) -> Option<(&[u8], &[u8])>
    ensures { ReadsFront rest.now (word rest.now) result (λ r. r.0.now) (λ r. r.1.now) }
{
    let first = &rest[..rest.len().min(17)];
    let (word, after) = rest.split_at(count_word_bytes(first));
    if is_short(word) {
        Some((word, after))
    } else {
        None
    }
}

// The numbers of a row of 1 to 4: the first `count` places of `numbers`; the others are 0.
#[derive(Clone, Copy)]
pub struct Row {
    pub numbers: [u32; 4],
    pub count: usize,
}

// The rest of a line from `head` on, with 1 to 4 numbers.
pub fn read_numbers<'a>(rest: &'a [u8], head: &[u8]) -> Option<(Row, &'a [u8])>
    requires { 0 < length head.now }
    ensures { NumbersRead rest.now head.now result (λ r. r.0) (λ r. r.1.now) }
{
    let mut numbers = [0u32; 4];
    let mut after = rest;
    let mut before = head;
    for k in 0..4usize {
        let (number, left) = read_number(read_text(after, before)?)?;
        numbers[k] = number;
        if let Some(behind) = read_text(left, &heads::LINE_END) {
            let row = Row {
                numbers,
                count: k + 1,
            };
            return Some((row, behind));
        }
        after = left;
        before = &heads::SPACE;
    }
    None
}

// N numbers, the first behind `head`, and each other behind a space.
pub fn read_sequence<'a, const N: usize>(
    rest: &'a [u8],
    head: &[u8],
) -> Option<([u32; N], &'a [u8])>
    requires some { 0 < N }
    requires head { 0 < length head.now }
    ensures { ReadsFront rest.now (numbers head.now N rest.now) result (λ r. r.0) (λ r. r.1.now) }
{
    let mut values = [0u32; N];
    let mut after = rest;
    let mut before = head;
    for value in values.iter_mut() {
        let (number, left) = read_number(read_text(after, before)?)?;
        *value = number;
        after = left;
        before = &heads::SPACE;
    }
    Some((values, after))
}

// The rest of a line from `head` on, with N numbers.
pub fn read_row<'a, const N: usize>(rest: &'a [u8], head: &[u8]) -> Option<([u32; N], &'a [u8])>
    requires some { 0 < N }
    requires head { 0 < length head.now }
    ensures { ReadsFront rest.now (row head.now N rest.now) result (λ r. r.0) (λ r. r.1.now) }
{
    let Some(read) = read_sequence::<N>(rest, head) else {
        return None;
    };
    let row = read.0;
    let after = read_text(read.1, &heads::LINE_END)?;
    Some((row, after))
}
