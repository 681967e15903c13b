//! Laws, for proofs above: no call does anything.
ghost use Rattle.span_core.specs.Filters.{FilterSet};
ghost use Rattle.span_dispatch.specs.Alone.{PathsActAlike};
ghost use Rattle.span_dispatch.specs.Outcome.{Outcome};
ghost use Rattle.span_dispatch.specs.Serve.{Serves};
ghost use Rattle.span_promises.specs.Answers.{AnswersAreOne};
ghost use Rattle.span_promises.specs.Isolation.{CallsSeenTheSame, HasSameOutcomes, HaveSameOutcomes, KeepsAgreement, OutcomesSeenTheSame};
ghost use Rattle.span_promises.specs.MadeCall.{MadeCall};
ghost use Rattle.span_promises.specs.Parents.{ParentsCloseLast};
ghost use Rattle.span_registry.specs.Conducts.{ArePlainConducts, Conducts};
ghost use Rattle.std.specs.Prelude.{List};

use span_registry::Subscriber;

/// The answer to a call is settled by the form of the stack, its registry and its cached callsites,
/// whichever stacks these are: new ids and want of memory aside.
pub fn answers_are_one<S: Subscriber, T: Subscriber>()
    ensures { AnswersAreOne S.registry T.registry
        (Serves S.registry S.with_registry S.has_form S.stepped S.reloaded)
        (Serves T.registry T.with_registry T.has_form T.stepped T.reloaded) }
{
    span_registry::laws::closes_once();
}

/// No parent closes before its child, whichever stack it is and whichever layer is notified: among
/// what is made of requests, the close of a child comes first, whether its request named the parent
/// or came from a lane that was in it.
pub fn parents_close_last<S: Subscriber>()
    ensures { ParentsCloseLast S.Subscriber }
{
    // The proof is by what each outcome does to the store.
}

/// A leaf is notified of the same in every stack, and alone: nothing that stands beside its path
/// makes a difference.
///
/// Two runs may be of stacks of two types. The same outcomes were made in both, or the same
/// requests were made and answered the same. The filters round the one leaf are plain; those round
/// the other have the same numbers and act alike, as plain filters do by themselves. At first the
/// stores differ only in extensions and other filters' verdicts.
///
/// What was made of a list is what its made requests say by themselves, whichever stack it is.
pub fn other_layers_make_no_difference<S: Subscriber, T: Subscriber>()
    ensures itself { (cs : Conducts) → ArePlainConducts cs → PathsActAlike cs cs }
    ensures of_outcomes { OutcomesSeenTheSame S.Subscriber T.Subscriber }
    ensures of_requests { CallsSeenTheSame S.Subscriber T.Subscriber }
{
    span_registry::laws::in_store_while_open_or_closing();
    span_registry::laws::closes_once();
}

/// A call says by itself what is made of it, whichever stack it is asked of.
///
/// On stores that agree, calls that are answered the same have the same outcomes, one by one and in
/// a row, and stores that agreed before an outcome agree after it.
pub fn calls_say_what_is_made()
    ensures one { (numbers : FilterSet) (call : MadeCall) → HasSameOutcomes numbers call }
    ensures all { (calls : List MadeCall) → HaveSameOutcomes calls }
    ensures step { (o : Outcome) → KeepsAgreement o }
{
    span_registry::laws::in_store_while_open_or_closing();
    span_registry::laws::closes_once();
}
