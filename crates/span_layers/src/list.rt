//! A list of layers. Questions and hooks go by index: the first member is asked first, and notified
//! first.
ghost use Rattle.std.specs.List.{All, AllZip};
ghost use Rattle.std.specs.Prelude.{◌≡◌, ◌||◌, false};
ghost use Rattle.span_core.specs.Level.{wider_hint};
ghost use Rattle.span_layers.specs.Acts.{ListActs};
ghost use Rattle.span_layers.specs.laws.Path.{list_path_laws};
ghost use Rattle.span_layers.specs.Layer.{LeavesAlone, MayNotify, Notified};
ghost use Rattle.span_layers.specs.Reload.{ListReloads};
ghost use Rattle.span_layers.specs.laws.Reload.{list_reloads};
ghost use Rattle.span_layers.specs.Members.{ListForm, ListHears, ListSteps};
ghost use Rattle.span_layers.specs.laws.List.{list_laws};
ghost use Rattle.span_layers.specs.Number.{TakesNumbers};
ghost use Rattle.span_registry.specs.Context.{HandsOn, HasNoRefusalsUnlessAsked};
ghost use Rattle.span_registry.specs.Reload.{takes_setting};
ghost use Rattle.span_registry.specs.Notice.{notice_of};
ghost use Rattle.span_registry.specs.Question.{ShowsBy, higher};

use crate::layer::Layer;
use span_core::{Event, Interest, LevelFilter, Metadata, Pass};
use span_registry::{Context, ContextMut, Notice, Subscriber};
use span_targets::Setting;

/// The higher of the two interests.
fn higher_of(i: Interest, j: Interest) -> Interest
    ensures { result ≡ higher i j }
{
    match (i, j) {
        (Interest::Never, _) => j,
        (Interest::Sometimes, Interest::Always) => Interest::Always,
        (Interest::Sometimes, _) => Interest::Sometimes,
        (Interest::Always, _) => Interest::Always,
    }
}

/// The greater of the two hints, and none where either is none.
fn wider_of(h: Option<LevelFilter>, k: Option<LevelFilter>) -> Option<LevelFilter>
    ensures { result ≡ wider_hint h k }
{
    match (h, k) {
        (Some(f), Some(g)) => Some(if f <= g { g } else { f }),
        _ => None,
    }
}

/// Puts all members of a list in use, by index.
fn put_in_use<S: Subscriber, L: Layer<S>>(members: &mut [L])
    requires { All L.usable members.old }
    ensures usable { All L.usable members.new }
    ensures registered { AllZip L.registered members.old members.new }
{
    for member in members.iter_mut() {
        member.on_register_dispatch();
    }
}

/// Gives the filters of a list's members the next numbers, by index.
fn number<S: Subscriber, L: Layer<S>>(members: &mut [L], subscriber: &mut S)
    requires members { All L.usable members.old }
    requires subscriber { S.usable subscriber.old }
    ensures members { All L.usable members.new }
    ensures subscriber { S.usable subscriber.new }
    ensures attached { AllZip L.attached members.old members.new }
    ensures numbers { TakesNumbers S.registry S.with_registry (ListForm L.has_form) members.old
        subscriber.old members.new subscriber.new }
{
    for member in members.iter_mut() {
        member.on_layer(subscriber);
    }
}

/// Whether one of the two is true.
fn either(one: bool, other: bool) -> bool
    ensures { result ≡ one || other }
{
    one || other
}

/// Has the filter with this number take a setting in all members of a list, and answers whether
/// there is one that takes it.
fn reload_each<S: Subscriber, L: Layer<S>>(members: &mut [L], number: u32, setting: Setting) -> bool
    requires { All L.usable members.old }
    ensures usable { All L.usable members.new }
    ensures taken { ShowsBy (ListForm L.has_form members.old) (λ f. takes_setting f number setting)
        result }
    ensures reloaded { ListReloads L.reloaded members.old number setting members.new }
    ensures unchanged { result ≡ false → members.new ≡ members.old }
{
    let mut taken = false;
    for member in members.iter_mut() {
        let one = member.reload(number, setting);
        taken = either(one, taken);
    }
    taken
}

/// Notifies all members of a list, by index.
#[inline(always)]
fn notify_all<S: Subscriber, L: Layer<S>>(
    members: &mut [L],
    notice: Notice<'_, '_>,
    ctx: &mut ContextMut<'_, S>,
)
    requires usable { MayNotify (All L.usable) S.usable members.old ctx.old }
    requires refusals { HasNoRefusalsUnlessAsked (notice_of notice) ctx.old }
    ensures usable { MayNotify (All L.usable) S.usable members.new ctx.new }
    ensures rest { HandsOn S.registry ctx.old ctx.new }
    ensures alone { LeavesAlone S.registry S.with_registry (ListForm L.has_form) members.old
        ctx.old ctx.new }
    ensures hook { Notified S.registry (ListForm L.has_form) (ListSteps L.stepped)
        (notice_of notice.entry) members.old ctx.old members.new ctx.new }
{
    for member in members.iter_mut() {
        member.notify(notice, ctx);
    }
}

impl<S: Subscriber, L: Layer<S>> Layer<S> for Vec<L> {
    ghost usable = { λ x. All L.usable x.items };

    ghost has_form = { λ x. ListForm L.has_form x.items };

    ghost stepped = { λ x p e lane under v y w.
        ListSteps L.stepped x.items p e lane under v y.items w };

    ghost hears = { λ x place h y. ListHears L.hears x.items place h y.items };

    ghost acts_at = { λ x. ListActs L.acts_at x.items };

    ghost reloaded = { λ x n l y. ListReloads L.reloaded x.items n l y.items };

    ghost registered = { λ x y. AllZip L.registered x.items y.items };

    ghost attached = { λ x y. AllZip L.attached x.items y.items };

    ghost laws = { list_laws L.laws (λ x. x.items) };

    ghost paths = { list_path_laws L.paths (λ x. x.items) };

    ghost reloads = { list_reloads L.reloads (λ x. x.items) };

    fn on_register_dispatch(&mut self) {
        put_in_use(self.as_mut_slice());
    }

    fn on_layer(&mut self, subscriber: &mut S) {
        number(self.as_mut_slice(), subscriber);
    }

    fn register_callsite(&self, meta: &Metadata, pass: &mut Pass) -> Interest {
        let mut highest = Interest::Never;
        for member in self.iter() {
            highest = higher_of(highest, member.register_callsite(meta, pass));
        }
        highest
    }

    fn enabled(&self, meta: &Metadata, ctx: &Context<'_, S>, pass: &mut Pass) -> bool {
        for member in self.iter() {
            if !member.enabled(meta, ctx, pass) {
                return false;
            }
        }
        true
    }

    fn event_enabled(&self, event: &Event<'_>, ctx: &Context<'_, S>, pass: &mut Pass) -> bool {
        for member in self.iter() {
            if !member.event_enabled(event, ctx, pass) {
                return false;
            }
        }
        true
    }

    fn max_level_hint(&self) -> Option<LevelFilter> {
        let mut widest = Some(LevelFilter::OFF);
        for member in self.iter() {
            widest = wider_of(widest, member.max_level_hint());
        }
        widest
    }

    fn filter_count(&self) -> u32 {
        let mut count: u32 = 0;
        for member in self.iter() {
            count = count.saturating_add(member.filter_count());
        }
        count
    }

    fn is_filtered(&self) -> bool {
        for member in self.iter() {
            if !member.is_filtered() {
                return false;
            }
        }
        !self.as_slice().is_empty()
    }

    fn is_absent(&self) -> bool {
        for member in self.iter() {
            if member.is_absent() {
                return true;
            }
        }
        false
    }

    #[inline(always)]
    fn notify(&mut self, notice: Notice<'_, '_>, ctx: &mut ContextMut<'_, S>) {
        notify_all(self.as_mut_slice(), notice, ctx);
    }

    fn reload(&mut self, number: u32, setting: Setting) -> bool {
        reload_each(self.as_mut_slice(), number, setting)
    }
}
