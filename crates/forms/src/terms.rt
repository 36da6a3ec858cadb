// The two numbers of 32 bits that are never taken one for the other.
// Names a counter; document 01: box number, the sources: ctrID. 0 names none.
#[derive(Clone, Copy, Debug, PartialEq, Eq)]
pub struct CounterId(pub u32);

// A reading of the module's clock; the sources: globClk.
#[derive(Clone, Copy, Debug, PartialEq, Eq, PartialOrd, Ord)]
pub struct GlobalClock(pub u32);
