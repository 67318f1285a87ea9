// The six numbers of a vote, apart from its value.

// The numbers have the widths of a frame's fields, so that a vote may also be one that no circle takes: its kind too is a number, since a
// readable frame may hold any. All are zero by default, as in the vote that an unreadable frame stands for. The widest stand first, so that no
// byte is left between them where fields lie in the order of the source, as they do today.
#[derive(Clone, Copy, Debug, PartialEq, Eq, Default)]
pub struct Numbers {
    pub page: u32,
    pub round: u16,
    pub kind: u8,
    pub house: u8,
    pub cp: u8,
    pub val: u8,
}
