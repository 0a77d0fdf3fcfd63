// An arc as it comes, an arc as it is held, the struct that stands for a network, and where a residual arc starts.
#![tactic(auto)]

ghost use Rattle.std.specs.Prelude.{◌≡◌, [], ◌/◌, ◌≤◌, ◌<◌, length, take};
ghost use Rattle.net_model.specs.Residual.{src};
ghost use Rattle.net_model.specs.Struct.{net_from};

// The five numbers of an arc as it comes.
#[derive(Clone, Copy)]
pub struct Row {
    pub tail: i32,
    pub head: i32,
    pub low: i32,
    pub up: i32,
    pub cost: i32,
}

#[derive(Clone, Copy)]
pub struct Arc {
    pub tail: u8,
    pub head: u8,
    pub low: u32,
    pub up: u32,
    pub cost: i32,
}

// A network: of each array the first places, as many as there are nodes or arcs; the others are 0. It is passed and kept by value and no heap is
// used, so the arrays have their full size, and a count beside them.
#[derive(Clone, Copy)]
pub struct Network {
    pub nodes: usize,
    pub arcs: usize,
    pub balances: [i32; 64],
    pub table: [Arc; 512],
}

impl Network {
    // The balances of its nodes.
    pub fn balances(&self) -> &[i32]
        requires { self.now.nodes ≤ 64 }
        ensures { result.now ≡ take self.now.nodes self.now.balances }
    {
        &self.balances[..self.nodes]
    }

    // Its arcs.
    pub fn arcs(&self) -> &[Arc]
        requires { self.now.arcs ≤ 512 }
        ensures { result.now ≡ take self.now.arcs self.now.table }
    {
        &self.table[..self.arcs]
    }
}

// Where the residual arc c starts.
pub fn source(arcs: &[Arc], c: usize) -> usize
    requires { c / 2 < length arcs.now }
    ensures { result ≡ src (net_from [] arcs.now) c }
{
    let arc = arcs[c / 2];
    if c % 2 == 0 {
        usize::from(arc.tail)
    } else {
        usize::from(arc.head)
    }
}
