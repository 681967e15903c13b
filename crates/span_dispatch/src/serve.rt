//! Lists of requests, served in order.
ghost use Rattle.std.specs.Prelude.{◌≡◌, ◌∷◌, [], ◌++◌, IfOk, IfErr, ◌<◌, ◌≤◌, ◌+◌, length, vec_len, vec_capacity};
ghost use Rattle.span_dispatch.specs.Contract.{AnswersDrop, AsksCall, AsksFor, AsksList, ServesList, StaysReadyWith};
ghost use Rattle.span_dispatch.specs.private.Step.{ServesNext};
ghost use Rattle.span_dispatch.specs.Registration.{KeepsRegistered};
ghost use Rattle.span_dispatch.specs.Serve.{call_of, stack_of};
ghost use Rattle.span_registry.specs.Reload.{KeepsRules};

use crate::call::Call;
use crate::dispatch::Dispatch;
use crate::request::{Answer, Request};
use span_core::TraceError;
use span_registry::{LookupSpan, Subscriber, laws};
use std::alloc::Global;

impl<S: Subscriber> Dispatch<S> {
    /// Serves requests in order, with one answer for each. Refused for want of memory, before any
    /// is served.
    ///
    /// Own to this port.
    pub fn serve(
        &mut self,
        alloc: Global,
        requests: &[Request<'_>],
    ) -> Result<Vec<Answer>, TraceError>
        requires { S.usable (stack_of self.old) }
        ensures usable { S.usable (stack_of self.new) }
        ensures ready { StaysReadyWith S.Subscriber KeepsRules self.old self.new }
        ensures served { IfOk result (ServesList S.Subscriber requests.now self.old self.new) }
        ensures asks { IfOk result (AsksList S.Subscriber requests.now self.old self.new) }
        ensures length { IfOk result (λ a. length a.items ≡ length requests.now) }
        ensures refused { IfErr result (λ e. (e ≡ TraceError.OutOfMemory) × (self.new ≡ self.old)) }
    {
        let mut answers = Vec::with_capacity(alloc, requests.len())?;
        self.serve_into(requests, &mut answers);
        Ok(answers)
    }

    /// Serves requests in order, where `answers` has room: their answers take the place of what is
    /// there. Never refused.
    ///
    /// Own to this port.
    pub fn serve_into(&mut self, requests: &[Request<'_>], answers: &mut Vec<Answer>)
        requires usable { S.usable (stack_of self.old) }
        requires room { length requests.now ≤ vec_capacity answers.old }
        ensures usable { S.usable (stack_of self.new) }
        ensures ready { StaysReadyWith S.Subscriber KeepsRules self.old self.new }
        ensures served { ServesList S.Subscriber requests.now self.old self.new answers.new }
        ensures asks { AsksList S.Subscriber requests.now self.old self.new answers.new }
        ensures length { length answers.new.items ≡ length requests.now }
        ensures room { vec_capacity answers.old ≤ vec_capacity answers.new }
    {
        laws::a_registry_is_sound(self.stack().root());
        answers.clear();
        for request in requests {
            let answer = self.serve_one(answers, request);
            append(answers, answer);
        }
    }

    /// Serves one request, given the answers so far.
    fn serve_one(&mut self, past: &[Answer], request: &Request<'_>) -> Answer
        requires { S.usable (stack_of self.old) }
        ensures usable { S.usable (stack_of self.new) }
        ensures registered { KeepsRegistered self.old self.new }
        ensures ready { StaysReadyWith S.Subscriber KeepsRules self.old self.new }
        ensures served { ServesNext S.Subscriber past.now request.now result self.old self.new }
        ensures asks { AsksFor S.Subscriber (call_of past.now request.now) result self.old
            self.new }
    {
        match request.call(past) {
            None => Answer::Dropped,
            Some(call) => self.ask(&call),
        }
    }

    /// Serves a call as the method of its kind does, and promises what that does; `ready` alone
    /// says less: that the form's rules are kept.
    ///
    /// Own to this port.
    pub fn ask(&mut self, call: &Call<'_>) -> Answer
        requires { S.usable (stack_of self.old) }
        ensures usable { S.usable (stack_of self.new) }
        ensures registered { KeepsRegistered self.old self.new }
        ensures ready { StaysReadyWith S.Subscriber KeepsRules self.old self.new }
        ensures served { AnswersDrop S.Subscriber call.now result self.old self.new }
        ensures asks { AsksCall S.Subscriber call.now result self.old self.new }
    {
        match call {
            Call::OpenSpan(lane, attributes) => Answer::of_span(self.new_span(*lane, attributes)),
            Call::SendEvent(lane, event) => Answer::of_event(self.event(*lane, event)),
            Call::Enter(lane, id) => Answer::of_done(self.enter(*lane, *id)),
            Call::Exit(lane, id) => {
                self.exit(*lane, *id);
                Answer::Done
            }
            Call::RecordValues(lane, id, values) => {
                Answer::of_done(self.record(*lane, *id, values))
            }
            Call::Follow(lane, id, other) => {
                Answer::of_done(self.follows_from(*lane, *id, *other))
            }
            Call::AddHandle(lane, id) => Answer::of_clone(self.clone_span(*lane, *id)),
            Call::DropHandle(lane, id) => Answer::of_yes(self.drop_span(*lane, *id)),
            Call::Probe(lane, metadata) => Answer::of_yes(self.enabled(*lane, metadata)),
            Call::AskCurrent(lane) => Answer::of_current(self.current_span(*lane)),
            Call::Reload(number, setting) => Answer::of_done(self.reload(*number, *setting)),
        }
    }
}

/// Appends an answer, where there is room.
fn append(answers: &mut Vec<Answer>, answer: Answer)
    requires { vec_len answers.old < vec_capacity answers.old }
    ensures items { answers.new.items ≡ answers.old.items ++ answer ∷ [] }
    ensures len { vec_len answers.new ≡ vec_len answers.old + 1 }
    ensures capacity { vec_capacity answers.old ≤ vec_capacity answers.new }
{
    let _ = answers.push(answer);
}
