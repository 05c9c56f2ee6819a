//! Laws of the definitions, each the contract of a function that does nothing.

ghost use Rattle.memory_order.specs.WiderRule.{WiderRuleIsWider};

/// An order that meets RVWMO with the wider rule for traces meets it with the manual's rules 9 to 13, where each plain store among
/// the events is that of a store instruction.
pub fn wider_rule_is_wider()
    ensures { WiderRuleIsWider }
{}
