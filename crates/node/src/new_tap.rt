// A tap that is to be opened, of n quanta in d ticks.
#[derive(Clone, Copy, PartialEq, Eq, Debug)]
pub struct NewTap {
    pub number: u8,
    pub source: u8,
    pub sink: u8,
    pub n: u32,
    pub d: u16,
}
