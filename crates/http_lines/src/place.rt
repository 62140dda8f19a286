//! The search for the end of a head, which goes on where it stood when more bytes come.

ghost use Rattle.std.specs.Prelude.{◌≡◌, ◌≤◌, length, IfOk};
ghost use Rattle.http_lines.specs.HeadEnd.{step, found_from};

/// Where the bytes of a head so far end.
#[derive(Clone, Copy, Debug, PartialEq, Eq)]
pub(crate) enum Place {
    /// Behind nothing but empty lines.
    Before,
    /// Behind nothing but empty lines and a CR.
    BeforeReturn,
    /// In a line that is not empty.
    Inside,
    /// Behind a line that is not empty.
    Between,
    /// Behind such a line and a CR.
    BetweenReturn,
}

impl Place {
    /// The place one byte further on, or `None` where this byte ends the head.
    pub(crate) fn step(self, byte: u8) -> Option<Place>
        ensures { result ≡ step self byte }
    {
        match (self, byte) {
            (Place::Before | Place::BeforeReturn, b'\n') => Some(Place::Before),
            (Place::Before, b'\r') => Some(Place::BeforeReturn),
            (Place::Inside, b'\n') => Some(Place::Between),
            (Place::Between | Place::BetweenReturn, b'\n') => None,
            (Place::Between, b'\r') => Some(Place::BetweenReturn),
            _ => Some(Place::Inside),
        }
    }

    /// How many of these bytes go on the head that stands here until its end, or the place behind them all.
    pub(crate) fn find_end(self, bytes: &[u8]) -> Result<usize, Place>
        ensures found { result ≡ found_from self bytes.now }
        ensures within { IfOk result (λ count. count ≤ length bytes.now) }
    {
        let mut place = self;
        for (i, byte) in bytes.iter().enumerate() {
            match place.step(*byte) {
                Some(next) => place = next,
                None => return Ok(i + 1),
            }
        }
        Err(place)
    }
}
