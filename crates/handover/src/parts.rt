// The nine parts of a state: thread elements of one size that follow one another, so that a size is a constant where values are tested and
// copied. No part goes past the end of a word of the head.
ghost use Rattle.std.specs.Prelude.{◌≡◌, ◌≤◌};
ghost use Rattle.handover.specs.Private.{place, IsPart};

// The elements from one to before another, their size, and where the first value lies in a state. What goes over a part stands in line at
// each call (`inline(always)`): only there the compiler sees the size as a constant.
#[derive(Clone, Copy)]
pub struct Part {
    pub from: usize,
    pub to: usize,
    pub size: usize,
    pub first: usize,
}

impl Part {
    // Where a value of a part lies in a state.
    pub fn place_of(self, e: usize) -> usize
        requires { IsPart self.from self.to self.size self.first × (self.from ≤ e) × (e ≤ self.to) }
        ensures { result ≡ place e }
    {
        self.first + (e - self.from) * self.size
    }
}

// 0x0C00 and 0x0C01, the run buffers.
pub const A: Part = Part {
    from: 0,
    to: 2,
    size: 16,
    first: 0,
};

// 0x0C02, then 0x1000 to 0x102C, with which the first word ends.
pub const B: Part = Part {
    from: 2,
    to: 48,
    size: 8,
    first: 32,
};

// 0x102D to 0x1053.
pub const C: Part = Part {
    from: 48,
    to: 87,
    size: 8,
    first: 400,
};

// 0x2000 to 0x200E.
pub const D: Part = Part {
    from: 87,
    to: 102,
    size: 4,
    first: 712,
};

// VSR 0 to 9, up to 0x3009, with which the second word ends.
pub const E: Part = Part {
    from: 102,
    to: 112,
    size: 16,
    first: 772,
};

// VSR 10 to 63.
pub const F: Part = Part {
    from: 112,
    to: 166,
    size: 16,
    first: 932,
};

// HDAR.
pub const G: Part = Part {
    from: 166,
    to: 167,
    size: 8,
    first: 1796,
};

// HDSISR and HEIR.
pub const H: Part = Part {
    from: 167,
    to: 169,
    size: 4,
    first: 1804,
};

// ASDR.
pub const I: Part = Part {
    from: 169,
    to: 170,
    size: 8,
    first: 1812,
};
