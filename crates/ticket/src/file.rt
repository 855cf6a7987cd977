// A ticket file, once record 0 is judged.

#[derive(Clone, Copy)]
pub(crate) struct File<'a> {
    pub(crate) bytes: &'a [u8],
    // how many conditions its literals may speak of
    pub(crate) conditions: u16,
}
