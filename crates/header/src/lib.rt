//! The six-byte header: what each send writes and each arrival reads.
#![tactic(auto)]

ghost use Rattle.std.specs.Prelude.{◌≡◌, IfOk, Ok, OnOk};
ghost use Rattle.header.specs.Headers.{header_fault, bytes_of, checked, header_of, Writes};

use cells::faults::{Cause, Fault, Layer, NO_PARTY};
use cells::limits::LAST_PARTY;
use cells::times::Span;

/// How many bytes a header has.
pub const LENGTH: usize = 6;
/// The most slots that a cell is sent ahead of its due slot.
pub const AHEAD_MAX: u32 = 127;

/// What travels with a cell: its party and label, and how far ahead of its due slot it was sent.
#[derive(Clone, Copy, PartialEq, Eq, Debug)]
pub struct Header {
    pub party: u8,
    pub ahead: Span,
    pub label: u32,
}

/// A fault of a header.
fn refused(cause: Cause, party: u8) -> Fault
    ensures { result ≡ header_fault cause party }
{
    Fault::of_party(cause, Layer::Header, party)
}

impl Header {
    /// The header, unless its party is above 15 or its ahead span above 127.
    fn checked(self) -> Result<Header, Fault>
        ensures { result ≡ checked 6 self self }
    {
        if self.party > LAST_PARTY {
            return Err(refused(Cause::HeaderParty, self.party));
        }
        if self.ahead.0 > AHEAD_MAX {
            return Err(refused(Cause::HeaderAhead, self.party));
        }
        Ok(self)
    }

    /// Reads a header. The bytes of a header that was read are those it would be written as.
    pub fn read(bytes: &[u8]) -> Result<Header, Fault>
        ensures value { result ≡ header_of bytes.now }
        ensures back { IfOk result (λ h. bytes_of h ≡ bytes.now) }
    {
        let [party, ahead, a, b, c, d] = bytes else {
            return Err(refused(Cause::HeaderLength, NO_PARTY));
        };
        let read = Header {
            party: *party,
            ahead: Span(u32::from(*ahead)),
            label: u32::from_be_bytes([*a, *b, *c, *d]),
        };
        read.checked()
    }

    /// Writes a header into six bytes. What was written is read as this header.
    pub fn write(self, bytes: &mut [u8]) -> Result<(), Fault>
        ensures after { Writes bytes.old self bytes.new result }
        ensures back { OnOk result (header_of bytes.new ≡ Ok self) }
    {
        if bytes.len() != LENGTH {
            return Err(refused(Cause::HeaderLength, NO_PARTY));
        }
        let Header {
            party,
            ahead,
            label,
        } = self.checked()?;
        let [a, b, c, d] = label.to_be_bytes();
        bytes.copy_from_slice(&[party, ahead.0 as u8, a, b, c, d]);
        Ok(())
    }
}
