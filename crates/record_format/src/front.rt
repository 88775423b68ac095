/// The fields of a payload between the sizes and the lists, as they are read.
#[derive(Clone, Copy)]
pub(crate) struct Front {
    pub(crate) limit: u16,
    pub(crate) cursor: u16,
    pub(crate) dropped: u8,
    pub(crate) versions: u8,
    pub(crate) checkpoints: u8,
    /// Not looked at.
    pub(crate) one: u8,
    pub(crate) bad: u16,
    /// Not looked at.
    pub(crate) two: u16,
    pub(crate) next: u64,
    pub(crate) last: u32,
}
