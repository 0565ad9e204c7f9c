use language::Handler;

/// Where a jump leads: the place of the first instruction there, and the handler that it is under.
#[derive(Clone, Copy, PartialEq, Eq, Debug)]
pub struct Target {
    pub at: u16,
    pub handler: Option<Handler>,
}

impl Target {
    // no Option: a record that jumps has its target, and each jump would have to take it out again
    /// That of a jump that is never made.
    pub const NOWHERE: Target = Target {
        at: 0,
        handler: None,
    };
}

/// What the names in a record stand for.
#[derive(Clone, Copy, PartialEq, Eq, Debug)]
pub struct Link {
    /// Where a goto, a branch that holds, and a call lead.
    pub goes: Target,
    /// Where a branch leads that does not hold.
    pub otherwise: Target,
    /// Where the handler of the record's block leads.
    pub handler: Target,
}

impl Link {
    /// That of a record without a name.
    pub const NONE: Link = Link {
        goes: Target::NOWHERE,
        otherwise: Target::NOWHERE,
        handler: Target::NOWHERE,
    };
}
