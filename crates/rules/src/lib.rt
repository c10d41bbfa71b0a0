// The types that answers are made of, for the rules in specs/ and for all code that is proved against them.
#![tactic(auto)]

ghost use Rattle.std.specs.Prelude.{◌≡◌};
ghost use Rattle.rules.specs.Refusals.{fault, number_of, place_number};

// What the place of a refusal names: a row of the type table (256: the lists as a whole), a byte of the
// message, a number of the value list, or an amount (handles used, or the room needed).
#[derive(Clone, Copy, PartialEq, Eq)]
pub enum Place {
    Row(u32),
    Byte(usize),
    Index(usize),
    Amount(usize),
}

// A refusal: its number in document 01, and its place.
#[derive(Clone, Copy, PartialEq, Eq)]
pub struct Fault {
    pub number: u32,
    pub place: Place,
}

// Why something is refused: document 01's table and the change requests, each with its number.
#[derive(Clone, Copy, PartialEq, Eq)]
pub enum Refusal {
    // the type table is not sound
    TableNotSound = 1,
    // the root is not allowed; for the layout calculator, the row does not exist
    RootNotAllowed = 2,
    // over 65,536 bytes
    MessageTooLong = 3,
    // over 64 handles
    TooManyHandles = 4,
    // the depth would be over 32
    TooDeep = 5,
    // an object, or the header, does not fit
    ObjectDoesNotFit = 6,
    // fill is not zero
    FillNotZero = 7,
    // a bool is neither 0 nor 1
    BoolNotZeroOrOne = 8,
    // a presence is neither 0 nor all ones
    PresenceWrong = 9,
    // something required is absent
    RequiredAbsent = 10,
    // absent, but its count or its envelope is not zero
    AbsentNotZero = 11,
    // a count is over the largest
    CountOverLargest = 12,
    // a string is not UTF-8
    TextNotUtf8 = 13,
    // too few handles are left
    TooFewHandles = 14,
    // an envelope's flags or its size form are wrong
    EnvelopeFormWrong = 15,
    // an envelope's byte number is wrong
    ByteNumberWrong = 16,
    // an ordinal that a strict union does not know
    OrdinalUnknown = 17,
    // a union's ordinal is not 0, but its envelope is zero
    PresentEnvelopeZero = 18,
    // a table's last envelope is zero
    LastEnvelopeZero = 19,
    // bytes are left
    BytesLeft = 20,
    // handles are left
    HandlesLeft = 21,
    // the room is too small
    RoomTooSmall = 22,
    // the header's magic byte is not 1
    MagicWrong = 23,
    // the header's ordinal is 0
    OrdinalZero = 24,
    // an epitaph's transaction number is not 0
    EpitaphTransaction = 25,
    // the list is not a value
    NotAValue = 26,
    // an envelope's handle number is wrong
    HandleNumberWrong = 28,
    // a strict enum's value is not among its entries, or strict bits have one outside their mask
    StrictValueUnknown = 29,
    // a prepared state does not agree with its lists
    StateDisagrees = 34,
    // unknown content claims more handles than its payload has room for
    HandlesImpossible = 35,
}

impl Refusal {
    // The refusal at a place.
    pub fn at(self, place: Place) -> Fault
        ensures { result ≡ fault (number_of self) place }
    {
        Fault {
            number: self as u32,
            place,
        }
    }
}

// What a row takes in line.
#[derive(Clone, Copy, PartialEq, Eq)]
pub struct Layout {
    pub size: usize,
    pub alignment: usize,
}

// A refusal's place as document 01 answers it: a plain number. (No `From`: what a place is as a number is a rule, and has its name.)
pub fn place_number(f: Fault) -> u64
    ensures { result ≡ place_number f.place }
{
    let place = f.place;
    match place {
        Place::Row(row) => row as u64,
        Place::Byte(offset) => offset as u64,
        Place::Index(index) => index as u64,
        Place::Amount(amount) => amount as u64,
    }
}
