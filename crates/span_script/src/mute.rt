//! A filter of events by their values.
ghost use Rattle.std.specs.Prelude.{◌≡◌};
ghost use Rattle.span_filters.specs.Filter.{ActsSteadily, settled_answers};
ghost use Rattle.span_filters.specs.laws.Filter.{settled_laws, steady_reloads};
ghost use Rattle.span_script.specs.Mute.{is_muted, is_true, mute_answers};
ghost use Rattle.span_script.specs.laws.Mute.{mute_honest};

use span_core::{Event, FieldValue, Interest, LevelFilter, Metadata};
use span_filters::Filter;
use span_registry::{Context, ContextMut, LookupSpan, Notice};
use span_targets::Setting;

/// Lets all by but the events that have a field `mute` with the value `true`.
#[derive(Clone, Copy, Debug)]
pub struct Mute;

/// One of the values is `true`, under the name `mute`.
pub fn is_muted(values: &[(&'static str, FieldValue<'_>)]) -> bool
    ensures { result ≡ is_muted values.now }
{
    values
        .iter()
        .any(|field| field.0 == "mute" && is_true(field.1))
}

fn is_true(value: FieldValue<'_>) -> bool
    ensures { result ≡ is_true value.entry }
{
    match value {
        FieldValue::Bool(said) => said,
        _ => false,
    }
}

impl<S: LookupSpan> Filter<S> for Mute {
    ghost has_answers = { settled_answers (λ f. mute_answers) };

    ghost acts = { ActsSteadily (settled_answers (λ f. mute_answers)) };

    ghost laws = { settled_laws (λ f. mute_answers) (λ f. mute_honest) };

    ghost reloads = { steady_reloads };

    fn enabled(&self, _meta: &Metadata, _cx: &Context<'_, S>) -> bool {
        true
    }

    fn callsite_enabled(&self, _meta: &Metadata) -> Interest {
        Interest::Always
    }

    fn event_enabled(&self, event: &Event<'_>, _cx: &Context<'_, S>) -> bool {
        !is_muted(event.values())
    }

    fn max_level_hint(&self) -> Option<LevelFilter> {
        None
    }

    fn notify(&mut self, _notice: Notice<'_, '_>, _ctx: &mut ContextMut<'_, S>) {}

    fn reload(&mut self, _setting: Setting) -> bool {
        false // It goes by the values.
    }
}
