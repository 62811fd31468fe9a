//! Laws on orders of a specification's variables. These functions do nothing: their contracts are the laws.

ghost use Rattle.std.specs.Prelude.{◌<◌, ℕ};
ghost use Rattle.spec_model.specs.Syntax.{Specification};
ghost use Rattle.spec_model.specs.Needs.{need_of};
ghost use Rattle.spec_order.specs.declared.report.OrderReport.{OrderReport};
ghost use Rattle.spec_order.specs.Crowded.{CrowdedOrder};
ghost use Rattle.spec_order.specs.Reports.{IsReport, IsSameReport};

/// What an order is sought with never fills as many nodes as the specification needs.
pub fn crowded_orders_only_below_the_need()
    ensures { (s : Specification) (n : ℕ) → CrowdedOrder s n → n < need_of s }
{}

/// A specification has one report.
pub fn one_report()
    ensures { (s : Specification) (a b : OrderReport) → IsReport s a → IsReport s b → IsSameReport a b }
{}
