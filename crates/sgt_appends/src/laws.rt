//! Laws of the definitions. The bodies are empty: each law is its contract.
ghost use Rattle.sgt_appends.specs.Precedences.{CyclesAreEnough, PrecedencesAreObeyed};
ghost use Rattle.sgt_appends.specs.Guides.{GuidesAreEnough};
ghost use Rattle.sgt_appends.specs.Faults.{FaultsAreEnough};
ghost use Rattle.sgt_appends.specs.Orders.{OrdersAreEnough};
ghost use Rattle.sgt_appends.specs.Linear.{FewEdgesAreEnough, RaisedAreEnough};

/// In each serial run, if one transaction precedes another, it stands before it.
pub fn precedences_are_obeyed()
    ensures { PrecedencesAreObeyed }
{}

/// If a transaction precedes itself along a path, there is no serial run.
pub fn cycles_are_enough()
    ensures { CyclesAreEnough }
{}

/// If a read has a fault, there is no serial run.
pub fn faults_are_enough()
    ensures { FaultsAreEnough }
{}

/// An order that rises along a guide is a serial run.
pub fn guides_are_enough()
    ensures { GuidesAreEnough }
{}

/// If no read has a fault, an order along the precedences is a serial run.
pub fn orders_are_enough()
    ensures { OrdersAreEnough }
{}

/// Ranks that rise along these few edges rise along all precedences.
pub fn few_edges_are_enough()
    ensures { FewEdgesAreEnough }
{}

/// If no read has a fault, an order by such ranks is a serial run.
pub fn raised_are_enough()
    ensures { RaisedAreEnough }
{}
