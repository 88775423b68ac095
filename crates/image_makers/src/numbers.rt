//! Numbers drawn by a fixed rule.
ghost use Rattle.std.specs.Prelude.{◌≤◌};

/// The numbers of one image, drawn by a linear generator (Knuth's for MMIX).
#[derive(Drop)]
pub struct Numbers {
    state: u64,
}

impl Numbers {
    /// Those of the image of a number.
    pub fn of(image: u64) -> Numbers {
        let mut numbers = Numbers {
            state: image.wrapping_mul(0x9e37_79b9_7f4a_7c15),
        };
        numbers.below(1);
        numbers
    }

    /// A number below a bound; 0 where the bound is.
    pub fn below(&mut self, bound: u64) -> u64
        ensures { result ≤ bound }
    {
        self.state = self
            .state
            .wrapping_mul(6_364_136_223_846_793_005)
            .wrapping_add(1_442_695_040_888_963_407);
        (self.state >> 33) % bound.max(1)
    }

    /// A place in a list of so many; 0 where it is empty.
    pub fn place(&mut self, length: usize) -> usize
        ensures { result ≤ length }
    {
        self.below(length as u64) as usize
    }

    /// Any byte.
    pub fn byte(&mut self) -> u8 {
        u8::try_from(self.below(256)).unwrap_or(0)
    }

    /// Whether a draw of so many hits.
    pub fn hits(&mut self, of: u64) -> bool {
        self.below(of) == 0
    }

    /// One of several values; the other one where there are none.
    pub fn pick<T: Copy>(&mut self, values: &[T], other: T) -> T {
        let place = self.place(values.len());
        values.get(place).copied().unwrap_or(other)
    }

    /// A number that fields are tried with: near a limit of one, or any.
    pub fn odd(&mut self) -> u64 {
        let any = self.below(u64::MAX);
        self.pick(&ODD, any)
    }
}

/// Numbers near the limits of fields.
const ODD: [u64; 27] = [
    0,
    1,
    2,
    3,
    4,
    7,
    8,
    9,
    10,
    13,
    14,
    15,
    16,
    31,
    32,
    33,
    63,
    64,
    65,
    127,
    128,
    129,
    256,
    65_535,
    65_536,
    16_777_217,
    u64::MAX,
];
