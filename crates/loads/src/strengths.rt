//! The dead load and the capacities of a member.

/// The dead load and the capacities of a member. A capacity not given is not checked.
#[derive(Clone, Copy, Debug, PartialEq, Eq)]
pub struct Figures {
    pub dead: i32,
    pub up: Option<i32>,
    pub down: Option<i32>,
}
