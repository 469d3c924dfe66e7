// The laws of what a bundle means, claimed: each function's contract is one law, and its body names the laws of crates below that it rests on.
ghost use Rattle.std.specs.Prelude.{◌≡◌, ℕ, List, Result};
ghost use Rattle.expand.specs.declared.reason.Rejection.{Rejection};
ghost use Rattle.plans.specs.Plan.{PlanValue, IsPlan};
ghost use Rattle.plans.specs.Value.{Out};
ghost use Rattle.lowering.specs.Means.{Means, StandsFor};
ghost use Rattle.rewrite.specs.Flat.{IsFlattened};
ghost use Rattle.rewrite.specs.Pruned.{IsPruned};
ghost use Rattle.evaluation.specs.declared.evaluated.Evaluated.{Evaluated};
ghost use Rattle.imageconfig.specs.declared.config.Config.{Config as ConfigValue};
ghost use Rattle.solver.specs.declared.answer.Answer.{Answer};
ghost use Rattle.answering.specs.Text.{answer_text, answer_status};
ghost use Rattle.build.specs.AnswerOf.{IsAnswerTo};
ghost use Rattle.build.specs.Graph.{GraphAnswers};
ghost use Rattle.build.specs.Interleaving.{FindsFirst};
ghost use Rattle.build.specs.Lowerable.{IsLowerable};
ghost use Rattle.build.specs.Meaning.{Asks, Answers, Tells};
ghost use Rattle.answering.specs.declared.status.Status.{Status};

use imageconfig::Config;

/// A bundle asks for one thing at most, or has one refusal, and never both: so one that isn't to be refused never is.
pub fn a_bundle_asks_for_one_thing()
    ensures { (bytes : List ℕ) (one other : Result Evaluated Rejection) → Asks bytes one → Asks bytes other → one ≡ other }
{
    dockerfile::laws::answers_are_unique();
    contexts::laws::a_listing_has_one_context();
}

/// A bundle has one answer at most under an executor, status and text: the answer is one function of the two.
pub fn a_bundle_has_one_answer()
    ensures { (bytes : List ℕ) (out : Out) (one other : Status) (text beside : List ℕ)
        → Answers bytes out one text → Answers bytes out other beside → (one ≡ other) × (text ≡ beside) }
{
    dockerfile::laws::answers_are_unique();
    contexts::laws::a_listing_has_one_context();
}

/// Each bundle has an answer under each executor: whatever its bytes are, there are a status and a text that are one.
pub fn every_bundle_has_an_answer()
    ensures { (bytes : List ℕ) (out : Out) → (status : Status) × (text : List ℕ) × Answers bytes out status text }
{
    bundle::laws::bytes_are_read_or_refused::<Config>();
    bundle::laws::images_are_as_they_are_read::<Config>();
    imageconfig::laws::what_is_read_has_an_environment();
    dockerfile::laws::texts_are_read_or_refused();
    dockerfile::laws::instructions_of_a_text_are_whole();
    stages::laws::what_is_resolved_is_a_table();
    evaluation::laws::every_table_is_evaluated_or_refused();
    evaluation::laws::what_is_evaluated_is_whole();
    lowering::laws::every_file_has_an_outcome();
}

/// A build tells the text of an answer, whether that text is made whole or said in pieces: what is told of what is asked for is the text of the answer
/// to it, and the text of each answer to it is told.
pub fn a_build_tells_the_text_of_its_answer()
    ensures told { (out : Out) (asked : Result Evaluated Rejection) (status : Status) (text : List ℕ) → Tells out asked status text
        → (answer : Result (Answer ConfigValue) Rejection) × IsAnswerTo out asked answer × (status ≡ answer_status answer) × (text ≡ answer_text answer) }
    ensures tells { (out : Out) (asked : Result Evaluated Rejection) (answer : Result (Answer ConfigValue) Rejection) → IsAnswerTo out asked answer
        → Tells out asked (answer_status answer) (answer_text answer) }
{}

/// A bundle has one graph at most, status and text: the definition of its operations, or its refusal.
pub fn a_bundle_has_one_graph()
    ensures { (bytes : List ℕ) (one other : Status) (text beside : List ℕ)
        → GraphAnswers bytes one text → GraphAnswers bytes other beside → (one ≡ other) × (text ≡ beside) }
{
    dockerfile::laws::answers_are_unique();
    contexts::laws::a_listing_has_one_context();
}

/// Every interleaving finds the first failure. Whatever list of events led to a board on which no claim is out, no vertex is ready and the target
/// isn't settled with a tree: some vertex is settled with a cause, and the settled cause of the least line is that of the first instruction that
/// fails. That holds of the plan that stands for a file, and of this plan pruned, flattened, or flattened and pruned.
pub fn every_interleaving_finds_the_first_failure()
    ensures lowered { (out : Out) (made : Evaluated) (plan : PlanValue ConfigValue) → IsLowerable made → IsPlan plan
        → Means plan made.rows made.target → StandsFor plan made.rows made.target
        → FindsFirst out plan made.rows }
    ensures pruned { (out : Out) (made : Evaluated) (plan pruned : PlanValue ConfigValue) → IsLowerable made → IsPlan plan
        → Means plan made.rows made.target → StandsFor plan made.rows made.target
        → IsPlan pruned → IsPruned plan pruned → FindsFirst out pruned made.rows }
    ensures flattened { (out : Out) (made : Evaluated) (plan flat : PlanValue ConfigValue) → IsLowerable made → IsPlan plan
        → Means plan made.rows made.target → StandsFor plan made.rows made.target
        → IsPlan flat → IsFlattened plan flat → FindsFirst out flat made.rows }
    ensures both { (out : Out) (made : Evaluated) (plan flat pruned : PlanValue ConfigValue) → IsLowerable made → IsPlan plan
        → Means plan made.rows made.target → StandsFor plan made.rows made.target
        → IsPlan flat → IsFlattened plan flat → IsPlan pruned → IsPruned flat pruned → FindsFirst out pruned made.rows }
{
    board::laws::an_idle_board_has_the_first_failure();
}
