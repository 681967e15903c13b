//! Who is notified: laws over forms, which name no type of layer. The functions make no call: what
//! they ensure is the law.
ghost use Rattle.std.specs.Prelude.{ℕ};
ghost use Rattle.span_stacks.specs.Honest.{HonestyIsKept, IsHonestStack};
ghost use Rattle.span_stacks.specs.Takes.{OneFilterTakesASetting};
ghost use Rattle.span_stacks.specs.Verdict.{EventsAreFresh, HasOwnNumbers, IsOrderly, NewSpansAreFresh, NotifiesByPaths, NumbersStayOwn, OthersStayFresh, VetoesAloneRefuse, VetoesAloneRefuseEvents};
ghost use Rattle.span_stacks.specs.Wanted.{AboveIsUnwanted, AlwaysAsksInVain, AlwaysIsWanted, NeverIsUnwanted};
ghost use Rattle.span_registry.specs.Form.{Form, WritesOnlyExtensions};

/// Who is notified by the pass is who is notified where each filter is asked afresh, and what the
/// pass holds of a new span is its verdict.
///
/// The filters' numbers are distinct, the pass was new, and every question was answered true.
pub fn the_pass_is_fresh()
    ensures new_span { NewSpansAreFresh }
    ensures event { EventsAreFresh }
    ensures others { OthersStayFresh }
{}

/// A leaf is notified exactly where its path passes the notice; a filter too, of notices that
/// filters are notified of.
pub fn a_leaf_is_notified_by_its_path()
    ensures { NotifiesByPaths }
{}

/// Where no leaf under a filter or in a list refuses anything, a question is answered false exactly
/// where a leaf vetoes.
pub fn vetoes_alone_refuse()
    ensures metadata { VetoesAloneRefuse }
    ensures event { VetoesAloneRefuseEvents }
{}

/// Where there is room for all filters of a layer, those that took the next numbers of a registry
/// have distinct ones, all handed out by it; the filters of the whole stack have too.
pub fn numbers_are_own()
    ensures { NumbersStayOwn }
{}

/// Where filters have numbers of their own, of two parts that stand together not both have a filter
/// that takes a setting under a number. A pair, a list or a stack, all parts of which are reloaded,
/// then answers and changes as the first that takes it does.
pub fn one_filter_takes_a_setting()
    ensures { OneFilterTakesASetting }
{}

/// What other laws ask of a form holds of an honest stack: its filters have numbers of their own,
/// no leaf under a filter or in a list refuses anything, and hooks write extensions alone.
pub fn an_honest_stack_keeps_the_rules()
    ensures numbers { (f : Form) (n : ℕ) → IsHonestStack f n → HasOwnNumbers f n }
    ensures orderly { (f : Form) (n : ℕ) → IsHonestStack f n → IsOrderly f }
    ensures still { (f : Form) (n : ℕ) → IsHonestStack f n → WritesOnlyExtensions f }
{}

/// An honest stack that was notified, put in use or reloaded is honest.
pub fn honesty_is_kept()
    ensures { HonestyIsKept }
{}

/// What an honest stack rules out is enabled for nobody: metadata of which its interest, asked with
/// a new pass, is `never`, or of which the level is above its hint. A leaf vetoes them, or no path
/// of a leaf or a filter passes them.
pub fn the_ruled_out_are_unwanted()
    ensures never { NeverIsUnwanted }
    ensures above { AboveIsUnwanted }
{}

/// Where the interest of an honest stack, asked with a new pass, is `always`, no leaf vetoes, and
/// each path whose filters have numbers passes: if the stack isn't asked whether the metadata are
/// enabled, nothing changes for anyone.
pub fn always_is_wanted()
    ensures wanted { AlwaysIsWanted }
    ensures asked { AlwaysAsksInVain }
{}
