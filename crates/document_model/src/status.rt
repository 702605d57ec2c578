/// The status of a dynamic property: whether commands may change its values, and whether listings
/// leave it out.
#[derive(Clone, Copy, Debug, PartialEq, Eq)]
pub struct Status2 {
    pub read_only: bool,
    pub hidden: bool,
}
