ghost use Rattle.std.specs.Prelude.{◌≡◌};
ghost use Rattle.order_rules.specs.Rules.{number_of};

/// The rules of preserved program order (manual, section 14.1.3), in the manual's order.
#[derive(Clone, Copy, PartialEq, Eq)]
pub enum OrderRule {
    OverlappingStore,
    DifferentWrites,
    ReturnsAtomic,
    Fenced,
    Acquired,
    Released,
    BothAnnotated,
    Paired,
    ByAddress,
    ByData,
    ByControl,
    ByForwarding,
    ByAddressBetween,
}

/// All of them.
pub(crate) const RULES: [OrderRule; 13] = [
    OrderRule::OverlappingStore,
    OrderRule::DifferentWrites,
    OrderRule::ReturnsAtomic,
    OrderRule::Fenced,
    OrderRule::Acquired,
    OrderRule::Released,
    OrderRule::BothAnnotated,
    OrderRule::Paired,
    OrderRule::ByAddress,
    OrderRule::ByData,
    OrderRule::ByControl,
    OrderRule::ByForwarding,
    OrderRule::ByAddressBetween,
];

impl OrderRule {
    /// Its number in the manual, 1 to 13.
    pub fn number(self) -> u8
        ensures { result ≡ number_of self }
    {
        match self {
            OrderRule::OverlappingStore => 1,
            OrderRule::DifferentWrites => 2,
            OrderRule::ReturnsAtomic => 3,
            OrderRule::Fenced => 4,
            OrderRule::Acquired => 5,
            OrderRule::Released => 6,
            OrderRule::BothAnnotated => 7,
            OrderRule::Paired => 8,
            OrderRule::ByAddress => 9,
            OrderRule::ByData => 10,
            OrderRule::ByControl => 11,
            OrderRule::ByForwarding => 12,
            OrderRule::ByAddressBetween => 13,
        }
    }

    /// What it is about, in a few words.
    pub fn name(self) -> &'static str {
        match self {
            OrderRule::OverlappingStore => "a store to a byte of an earlier operation",
            OrderRule::DifferentWrites => "two loads of a byte from different stores",
            OrderRule::ReturnsAtomic => "a load of what an AMO or SC wrote",
            OrderRule::Fenced => "a fence between them",
            OrderRule::Acquired => "an acquire",
            OrderRule::Released => "a release",
            OrderRule::BothAnnotated => "acquires and releases",
            OrderRule::Paired => "an LR and its SC",
            OrderRule::ByAddress => "an address dependency",
            OrderRule::ByData => "a data dependency",
            OrderRule::ByControl => "a control dependency",
            OrderRule::ByForwarding => "a load of a store that depends on the first",
            OrderRule::ByAddressBetween => "an address between them that depends on the first",
        }
    }
}
