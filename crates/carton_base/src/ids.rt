/// A panel: the place of its face in the dieline's list of faces, from 0.
#[derive(Clone, Copy, Debug, Default, PartialEq, Eq, PartialOrd, Ord, Hash)]
pub struct PanelId(pub u8);

/// An edge: its place in the dieline's list of edges, from 0.
#[derive(Clone, Copy, Debug, PartialEq, Eq, PartialOrd, Ord, Hash)]
pub struct EdgeId(pub u16);

/// A stop of a joint: its fold is this number over the number of stops in a right angle. Stop 0 is flat.
#[derive(Clone, Copy, Debug, PartialEq, Eq, PartialOrd, Ord, Hash)]
pub struct Stop(pub i8);
