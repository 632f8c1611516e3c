// What a round and the calls of the listing work on: a question that passed refusals 1 to 7, with its moves brought into a step table.

ghost use Rattle.std.specs.Prelude.{◌≡◌, ◌≤◌, length};
ghost use Rattle.walk.specs.Ceilings.{ceilings};
ghost use Rattle.tables.specs.Runs.{Rising};
ghost use Rattle.tables.specs.Steps.{Leads};
ghost use Rattle.rows.specs.Offers.{TiesIn};

use tables::steps::Steps;
use walk::Question;

#[derive(Clone, Copy)]
pub struct Lent<'a, 'b> {
    pub question: Question<'a>,
    pub steps: &'b Steps,
    ghost few: { (question.network.marks ≤ ceilings.marks) × (question.network.kinds ≤ ceilings.kinds)
        × (question.condition.states ≤ ceilings.states) },
    ghost columns: { TiesIn question.network.marks question.network.kinds (length question.from.now) question.from.now question.kinds.now },
    ghost rising: { Rising question.to.now (length question.to.now) question.network.marks },
    ghost same: { length question.to.now ≡ length question.from.now },
    ghost leads: { Leads steps.now.table steps.now.sources question.condition.states },
}
