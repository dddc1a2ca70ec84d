// Why a call is refused, and where.
ghost use Rattle.std.specs.Prelude.{◌≡◌};
ghost use Rattle.words.specs.Outcome.{number_of, place_of};
ghost use Rattle.words.specs.Refusal.{list_number, packed_number, refused_by};

// What is wrong with a record of a list.
#[derive(Clone, Copy, Debug, PartialEq, Eq)]
pub enum RecordFault {
    // 6: its id is not below T.
    Id,
    // 7: it starts after its end.
    Range,
    // 8: its size is no number of whole records, or reaches past the first record.
    Size,
    // 9: its span begins inside an earlier record's span without covering it whole.
    Span,
    // 10: it leaves its parent's range, or starts before its preceding sibling's end.
    Place,
}

// What is wrong with a record of a packed part.
#[derive(Clone, Copy, Debug, PartialEq, Eq)]
pub enum PackedFault {
    // 17: its id is not below T.
    Id,
    // 18: it starts after its end.
    Range,
    // 19: its end index is below its offset + 4, above the length, or no multiple of 4.
    EndIndex,
    // 20: its end index is above an enclosing record's.
    Nesting,
}

// Why a call is refused, with the place at fault where one is named.
#[derive(Clone, Copy, Debug, PartialEq, Eq)]
pub enum Refusal {
    // 1: T above 65,536.
    ManyTypes,
    // 2: b above 65,535.
    WideBound,
    // 3: the top id is not below T.
    TopId,
    // 4: the length of the list is not a multiple of 4.
    UnevenList,
    // 5: over 1,048,576 records.
    ManyRecords,
    // 6 to 10: the number of a record, from 0.
    Record(RecordFault, usize),
    // 11: too short a work slice.
    LittleWork,
    // 12, 13, 14: too little room for the result's cells, packed words, listing lines.
    LittleCells,
    LittleWords,
    LittleLines,
    // 15: the lowest cell that breaks the cell rules, from 1; 0 where there is no whole cell.
    Cell(usize),
    // 16: the length of the part is not a multiple of 4.
    UnevenPart,
    // 17 to 20: the word offset of a packed record.
    Packed(PackedFault, usize),
    // 21: bounds reversed or past the length.
    Bounds,
    // 22: a bound is not a multiple of 4.
    UnevenBounds,
    // 23: the base is above the start of the record at this word offset.
    BaseAbove(usize),
    // 24: following end indices from the first bound never meets the second.
    NoWay,
    // 25: base plus the end of the record at this word offset is above 4,294,967,295.
    FarEnd(usize),
}

impl RecordFault {
    pub fn number(self) -> u32
        ensures { result ≡ list_number self }
    {
        match self {
            RecordFault::Id => 6,
            RecordFault::Range => 7,
            RecordFault::Size => 8,
            RecordFault::Span => 9,
            RecordFault::Place => 10,
        }
    }
}

impl PackedFault {
    pub fn number(self) -> u32
        ensures { result ≡ packed_number self }
    {
        match self {
            PackedFault::Id => 17,
            PackedFault::Range => 18,
            PackedFault::EndIndex => 19,
            PackedFault::Nesting => 20,
        }
    }
}

impl Refusal {
    // The number by which the calls are told apart.
    pub fn number(self) -> u32
        ensures { result ≡ number_of (refused_by self) }
    {
        match self {
            Refusal::ManyTypes => 1,
            Refusal::WideBound => 2,
            Refusal::TopId => 3,
            Refusal::UnevenList => 4,
            Refusal::ManyRecords => 5,
            Refusal::Record(fault, _) => fault.number(),
            Refusal::LittleWork => 11,
            Refusal::LittleCells => 12,
            Refusal::LittleWords => 13,
            Refusal::LittleLines => 14,
            Refusal::Cell(_) => 15,
            Refusal::UnevenPart => 16,
            Refusal::Packed(fault, _) => fault.number(),
            Refusal::Bounds => 21,
            Refusal::UnevenBounds => 22,
            Refusal::BaseAbove(_) => 23,
            Refusal::NoWay => 24,
            Refusal::FarEnd(_) => 25,
        }
    }

    // The place at fault, 0 where none is named.
    pub fn place(self) -> usize
        ensures { result ≡ place_of (refused_by self) }
    {
        match self {
            Refusal::Record(_, at) => at,
            Refusal::Cell(at) => at,
            Refusal::Packed(_, at) => at,
            Refusal::BaseAbove(at) => at,
            Refusal::FarEnd(at) => at,
            _ => 0,
        }
    }
}
