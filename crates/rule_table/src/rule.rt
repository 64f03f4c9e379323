//! One rule.
use range_map::Range;

/// What a rule says of its addresses.
#[derive(Clone, Copy, PartialEq, Eq, Debug)]
pub enum Decision {
    /// They are allowed.
    Allow,
    /// They are denied.
    Deny,
}

/// A rule: a decision for a range of addresses.
#[derive(Clone, Copy, PartialEq, Eq, Debug)]
pub struct Rule {
    /// What the rule says.
    pub decision: Decision,
    /// The addresses of which it says that.
    pub addresses: Range<u32>,
}
