/// An event of the lanes. One that finds nothing, as `Take` of a lane past the last, changes nothing.
#[derive(Clone, Copy, Debug, PartialEq, Eq)]
pub enum Turn {
    /// The first unit that is not dealt goes to the end of its lane's ring.
    Deal,
    /// The first unit in this lane's ring is taken.
    Take(usize),
}
