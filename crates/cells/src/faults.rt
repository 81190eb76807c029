//! Faults: what was refused, why, in which layer, and where.

ghost use Rattle.std.specs.Prelude.{◌≡◌, Some};
ghost use Rattle.cells.specs.Faults.{cause_number, layer_number, fault_text, party_fault, text_fault};

use std::fmt;

/// Why a call or a text was refused.
#[derive(Clone, Copy, PartialEq, Eq, Debug)]
pub enum Cause {
    /// The party is above 15.
    PartyOutOfRange = 1,
    /// The party has a contract here already, or is listed in the booking.
    PartyHasContract = 2,
    /// The spacing is outside 1 to 1,024.
    SpacingOutOfRange = 3,
    /// A bound is outside 1 to 128, or a lead outside 1 to 191.
    BoundOutOfRange = 4,
    /// The party crosses no hop.
    NoHopCrossed = 5,
    /// A cell is held or on the path, so no contract can be added now.
    CellsPresent = 6,
    /// The waiting cells could outgrow the calendar of 192.
    CalendarExceeded = 7,
    /// The held cells could outgrow a scheduler's table of 128.
    TableExceeded = 8,
    /// No busy period of at most 1,024 slots ends: too much work is promised.
    NoBusyPeriod = 9,
    /// More cells could be due within some span than it has slots.
    DemandExceeded = 10,
    /// A level and those below it could have more cells than a level's span has slots.
    LevelExceeded = 11,
    /// No offset of the period has all its turns free.
    NoFreeOffset = 12,
    /// The party has no contract here, or is not listed in the booking.
    NoContract = 13,
    /// The cell comes, or would leave, sooner than a spacing after another of its party.
    TooSoon = 14,
    /// The delivery slot would be above the last slot.
    DeliveryPastLast = 15,
    /// A lent table has a wrong length.
    TableLength = 16,
    /// Every slot is over: the slot is past the last.
    SlotsOver = 17,
    /// A cell of the party is held or on the path, so its contract cannot be taken back.
    PartyHasCells = 18,
    /// The eligible slot is below the path's slot, or not below slot + lead.
    EligibleOutOfWindow = 19,
    /// A header is not 6 bytes long.
    HeaderLength = 20,
    /// A header's party is above 15.
    HeaderParty = 21,
    /// A header's ahead span is above 127.
    HeaderAhead = 22,
    /// A text is above 32,768 bytes, or its last byte is no newline.
    TextSizeOrEnd = 23,
    /// A line is not of its form.
    LineForm = 24,
    /// A number of a line is out of range.
    NumberOutOfRange = 25,
    /// A line stands where it may not, or the plan as a whole lacks one.
    LinePlace = 26,
    /// A record line does not fit.
    RecordFull = 27,
    /// The chosen party has no PARTY line.
    NoPartyLine = 28,
}

impl Cause {
    /// The number of a cause in a fault line.
    pub fn number(self) -> u8
        ensures { result ≡ cause_number self }
    {
        self as u8
    }
}

/// The layer that refused.
#[derive(Clone, Copy, PartialEq, Eq, Debug)]
pub enum Layer {
    Scheduler = 1,
    /// A hop, or the end of a path.
    Hop = 2,
    Path = 3,
    Plan = 4,
    Trace = 5,
    Record = 6,
    Header = 7,
}

impl Layer {
    /// The number of a layer in a fault line.
    pub fn number(self) -> u8
        ensures { result ≡ layer_number self }
    {
        self as u8
    }
}

// Numbers, and not options: the rules write none so in a fault line, and a hop fills its number in
// where 255 stands.
/// In a fault: no party.
pub const NO_PARTY: u8 = 255;
/// In a fault: no hop.
pub const NO_HOP: u8 = 255;
/// In a fault: no line. Lines are numbered from 1.
pub const NO_LINE: u32 = 0;

/// A refusal: its cause and layer, and the party, hop and line that it is about, or 255, 255
/// and 0 where it is about none.
#[derive(Clone, Copy, PartialEq, Eq, Debug)]
pub struct Fault {
    pub cause: Cause,
    pub layer: Layer,
    pub party: u8,
    pub hop: u8,
    pub line: u32,
}

impl Fault {
    /// A fault that is about a party: it names neither a hop nor a line.
    pub fn of_party(cause: Cause, layer: Layer, party: u8) -> Fault
        ensures { result ≡ party_fault cause layer party }
    {
        Fault {
            cause,
            layer,
            party,
            hop: NO_HOP,
            line: NO_LINE,
        }
    }

    /// A fault of a text: it names its line, and neither a party nor a hop.
    pub fn of_text(cause: Cause, layer: Layer, line: u32) -> Fault
        ensures { result ≡ text_fault cause layer line }
    {
        Fault {
            line,
            ..Fault::of_party(cause, layer, NO_PARTY)
        }
    }
}

/// The fault line, without its newline: `FAULT number layer party hop line`, parted by tabs.
impl fmt::Display for Fault {
    ghost output = { λ f. Some (fault_text f) };

    fn fmt<W: fmt::Write>(&self, f: &mut fmt::Formatter<W>) -> fmt::Result {
        let number = self.cause.number();
        let layer = self.layer.number();
        let party = self.party;
        let hop = self.hop;
        let line = self.line;
        write!(f, "FAULT\t{number}\t{layer}\t{party}\t{hop}\t{line}")
    }
}
