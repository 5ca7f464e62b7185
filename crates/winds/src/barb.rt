// One barb: ten bytes, six numbers.
ghost use Rattle.winds.specs.Winds.{barb, barb_numbers, barb_read};
ghost use Rattle.std.specs.Prelude.{◌≡◌, ◌+◌, ◌^◌, ◌<◌, ◌≤◌};

use books::faults::FieldFault;
use cells::cell::Cell;
use cells::codes::{read_up_to, write_signed, write_up_to};
use wire::pairs::worth;

/// The highest direction, in degrees.
const TOP_DIRECTION: u16 = 360;

/// The highest speed.
const TOP_SPEED: u16 = 32_767;

/// The wind at a place: M and N of the place, the direction in degrees, the speed, the gust and the hemisphere.
#[derive(Clone, Copy, PartialEq, Eq, Debug)]
pub struct Barb {
    pub m: i32,
    pub n: i32,
    pub direction: i32,
    pub speed: i32,
    pub gust: i32,
    pub hemisphere: i32,
}

impl From<Barb> for [i32; 6] {
    ghost use Rattle.winds.specs.Winds.{barb_numbers};

    ghost from_gives = { λ b l. l ≡ barb_numbers b };

    fn from(barb: Barb) -> [i32; 6] {
        [
            barb.m,
            barb.n,
            barb.direction,
            barb.speed,
            barb.gust,
            barb.hemisphere,
        ]
    }
}

impl From<[i32; 6]> for Barb {
    ghost use Rattle.winds.specs.Winds.{barb_of};

    ghost from_gives = { λ l b. b ≡ barb_of l };

    fn from(numbers: [i32; 6]) -> Barb {
        let [m, n, direction, speed, gust, hemisphere] = numbers;
        Barb {
            m,
            n,
            direction,
            speed,
            gust,
            hemisphere,
        }
    }
}

impl Barb {
    // Beside `From`, which wants the array's type written out: callers have this name.
    /// The six numbers, in their order.
    pub fn numbers(self) -> [i32; 6]
        ensures { result ≡ barb_numbers self }
    {
        self.into()
    }

    /// Reads ten bytes of a data field, which stand from an offset on.
    pub(crate) fn read(bytes: &[u8; 10], offset: usize) -> Result<Barb, FieldFault>
        requires { offset + 9 < 2 ^ 64 }
        ensures { result ≡ barb_read offset bytes.now }
    {
        let [m0, m1, n0, n1, d0, d1, s0, s1, gust, hemisphere] = *bytes;
        Ok(Barb {
            m: worth(m0, m1).signed(),
            n: worth(n0, n1).signed(),
            direction: read_up_to(worth(d0, d1), TOP_DIRECTION, offset + 4)?,
            speed: read_up_to(worth(s0, s1), TOP_SPEED, offset + 6)?,
            gust: i32::from(gust),
            hemisphere: read_up_to(hemisphere, 1, offset + 9)?,
        })
    }

    /// The ten bytes of a barb whose numbers stand from an index on.
    pub(crate) fn bytes(self, index: usize) -> Result<[u8; 10], FieldFault>
        requires { index ≤ 2456 }
        ensures { result ≡ barb.writing index (barb_numbers self) }
    {
        let [m0, m1] = write_signed::<u16>(self.m, index)?.to_be_bytes();
        let [n0, n1] = write_signed::<u16>(self.n, index + 1)?.to_be_bytes();
        let [d0, d1] = write_up_to(self.direction, TOP_DIRECTION, index + 2)?.to_be_bytes();
        let [s0, s1] = write_up_to(self.speed, TOP_SPEED, index + 3)?.to_be_bytes();
        let gust = write_up_to(self.gust, u8::MAX, index + 4)?;
        let hemisphere = write_up_to(self.hemisphere, 1, index + 5)?;
        Ok([m0, m1, n0, n1, d0, d1, s0, s1, gust, hemisphere])
    }
}
