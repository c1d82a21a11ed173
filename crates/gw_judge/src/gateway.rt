//! A gateway whose ports have interfaces.

use crate::interfaces::NamedInterface;
use gw_policy::PolicySet;

/// A gateway of at most 16 ports, whose interfaces a log names.
#[derive(Clone, Copy)]
pub struct Gateway<'a> {
    /// The interfaces of the ports. A port may have several, and has none where it only has a policy.
    pub names: &'a [NamedInterface<'a>],
    /// What decides at each port which frames leave there.
    pub policies: &'a PolicySet,
}
