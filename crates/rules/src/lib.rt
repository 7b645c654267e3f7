// The types that the rules, the code and the theorems share. The rules themselves are in specs/.
#![tactic(auto)]

ghost use Rattle.std.specs.Prelude.{◌≡◌, ◌+◌, ◌<◌, ◌≤◌};
ghost use Rattle.rules.specs.Refusals.{code};
ghost use Rattle.rules.specs.Answers.{refused_reply};

// A call on the queues: one of seven kinds, each with its own numbers.
#[derive(Clone, Copy)]
pub enum Call {
    Insert { heap: u32, item: u32, key: u32 },
    FindMin { heap: u32 },
    ExtractMin { heap: u32 },
    DecreaseKey { item: u32, key: u32 },
    Delete { item: u32 },
    Meld { into: u32, from: u32 },
    Raise { heap: u32, by: u32 },
}

// What a line is answered. A refused line has its code and four zeros.
#[derive(Clone, Copy)]
pub struct Answer {
    pub code: u32,
    pub item: u32,
    pub key: u32,
    pub links: u32,
    pub cuts: u32,
}

impl Answer {
    // The answer to a line that is refused.
    pub fn refused(refusal: Refusal) -> Answer
        ensures { result ≡ refused_reply (code refusal) }
    {
        Answer {
            code: refusal.code(),
            item: 0,
            key: 0,
            links: 0,
            cuts: 0,
        }
    }
}

// Why a line, a run, a feed call or a map is refused. The papers number the reasons; 0 is a call that is done.
#[derive(Clone, Copy, Debug, PartialEq, Eq)]
pub enum Refusal {
    StoreSize = 1,
    SheetLength = 2,
    LineCount = 3,
    OutputLength = 4,
    UnsoundStore = 5,
    NoCall = 6,
    NoSuchHeap = 7,
    NoSuchItem = 8,
    ItemInHeap = 9,
    ItemFree = 10,
    LargerKey = 11,
    EmptyHeap = 12,
    SameHeap = 13,
    PlaceCount = 14,
    StartPlace = 15,
    SpanLists = 16,
    ResultLists = 17,
    SpanEnds = 18,
    SpanLoss = 19,
    SpanOrder = 20,
    MalformedMap = 21,
    PlaceList = 22,
    SupplyWindow = 23,
    Minute = 24,
    KeyOverflow = 25,
}

impl Refusal {
    // The number that the papers give it.
    pub fn code(self) -> u32
        ensures { result ≡ code self }
    {
        self as u32
    }
}

// The kinds of words in a store: five to a heap, eight to an item.
#[derive(Clone, Copy)]
pub enum Field {
    FirstTree,
    LastTree,
    Minimum,
    Count,
    Amount,
    Key,
    Parent,
    FirstChild,
    LastChild,
    Next,
    Prev,
    Rank,
    State,
}

// The order of the items' words in a store: each item's eight side by side, or those of each kind, which is the order
// of old stores.
#[derive(Clone, Copy)]
pub enum Layout {
    ByItem,
    ByKind,
}

// The links and cuts that calls made, passed from call to call.
#[derive(Clone, Copy)]
pub struct Tally {
    pub links: u32,
    pub cuts: u32,
}

impl Tally {
    // So many links more.
    pub fn link(self, links: u32) -> Tally
        requires { self.links + links ≤ 4294967295 }
        ensures { (result.links ≡ self.links + links) × (result.cuts ≡ self.cuts) }
    {
        Tally {
            links: self.links + links,
            cuts: self.cuts,
        }
    }

    // So many cuts more.
    pub fn cut(self, cuts: u32) -> Tally
        requires { self.cuts + cuts ≤ 4294967295 }
        ensures { (result.links ≡ self.links) × (result.cuts ≡ self.cuts + cuts) }
    {
        Tally {
            links: self.links,
            cuts: self.cuts + cuts,
        }
    }
}
