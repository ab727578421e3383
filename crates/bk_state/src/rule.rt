/// The ten rules by which the current access set, the rows, the objects and the current levels change.
#[derive(Clone, Copy, PartialEq, Eq, Debug)]
pub enum Rule {
    GetRead,
    GetAppend,
    GetExecute,
    GetWrite,
    Release,
    Give,
    Rescind,
    Create,
    DeleteGroup,
    RaiseLevel,
}
