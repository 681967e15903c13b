//! Tests of filters, as a layer's filters are asked.
use crate::store_fixture::{event_at, hint_of, is_shown_as, says, wants};
use span_core::{Interest, Level, LevelFilter, Metadata};
use span_filters::{DynFilterFn, FilterFn, dynamic_filter_fn, filter_fn};
use span_registry::{Context, Registry};
use std::test::Fail;

#[test]
fn a_level_passes_what_is_no_more_verbose(rt: HostRuntime) -> Result<(), Fail> {
    let rows = [
        (Level::INFO, true, Interest::Always),
        (Level::DEBUG, false, Interest::Never),
    ];
    says(&rt, &LevelFilter::INFO, &rows, Some(LevelFilter::INFO));
    Ok(())
}

#[test]
fn a_test_of_metadata_settles_the_interest(rt: HostRuntime) -> Result<(), Fail> {
    let filter = filter_fn(|meta: &Metadata| meta.level() == Level::INFO);
    let rows = [
        (Level::INFO, true, Interest::Always),
        (Level::WARN, false, Interest::Never),
    ];
    says(&rt, &filter, &rows, None);
    let filter = filter.with_max_level_hint(LevelFilter::INFO);
    assert!(rt; hint_of(&filter) == Some(LevelFilter::INFO));
    Ok(())
}

#[test]
fn a_test_of_the_context_is_asked_each_time(rt: HostRuntime) -> Result<(), Fail> {
    let filter = dynamic_filter_fn(|meta: &Metadata, _cx: &Context<'_, Registry>| {
        meta.level() <= Level::INFO
    });
    says(
        &rt,
        &filter,
        &[(Level::DEBUG, false, Interest::Sometimes)],
        None,
    );
    let filter = filter.with_max_level_hint(LevelFilter::INFO);
    let rows = [
        (Level::INFO, true, Interest::Sometimes),
        (Level::DEBUG, false, Interest::Never),
    ];
    says(&rt, &filter, &rows, Some(LevelFilter::INFO));
    let filter = filter.with_callsite_filter(|meta: &Metadata| {
        if meta.level() == Level::ERROR {
            Interest::Always
        } else {
            Interest::Sometimes
        }
    });
    let rows = [
        (Level::ERROR, true, Interest::Always),
        (Level::DEBUG, false, Interest::Sometimes),
    ];
    says(&rt, &filter, &rows, Some(LevelFilter::INFO));
    Ok(())
}

#[test]
fn filters_are_made_of_closures(rt: HostRuntime) -> Result<(), Fail> {
    let filter = FilterFn::from(|meta: &Metadata| meta.level() == Level::WARN);
    assert!(rt; wants(&filter, event_at(Level::WARN)));
    let filter = DynFilterFn::from(|meta: &Metadata, _cx: &Context<'_, Registry>| {
        meta.level() == Level::WARN
    });
    assert!(rt; wants(&filter, event_at(Level::WARN)));
    Ok(())
}

#[test]
fn copies_of_filters(rt: HostRuntime) -> Result<(), Fail> {
    let filter = filter_fn(|meta: &Metadata| meta.level() == Level::WARN);
    let copy = filter.clone()?;
    assert!(rt; wants(&copy, event_at(Level::WARN)));
    let filter = dynamic_filter_fn(|meta: &Metadata, _cx: &Context<'_, Registry>| meta.is_span());
    let copy = filter.clone()?;
    assert!(rt; !wants(&copy, event_at(Level::WARN)));
    Ok(())
}

#[test]
fn texts_of_filters(rt: HostRuntime) -> Result<(), Fail> {
    let alloc = rt.alloc();
    let filter = filter_fn(|meta: &Metadata| meta.is_span());
    let text = "FilterFn { enabled: .., max_level_hint: None }";
    is_shown_as(&rt, alloc, &filter, text)?;
    let filter = dynamic_filter_fn(|meta: &Metadata, _cx: &Context<'_, Registry>| meta.is_span());
    let text = "DynFilterFn { enabled: .., register_callsite: None, max_level_hint: None }";
    is_shown_as(&rt, alloc, &filter, text)?;
    let filter = filter
        .with_max_level_hint(LevelFilter::INFO)
        .with_callsite_filter(|_meta: &Metadata| Interest::Sometimes);
    let text =
        "DynFilterFn { enabled: .., register_callsite: Some(..), max_level_hint: Some(LevelFilter::INFO) }";
    is_shown_as(&rt, alloc, &filter, text)
}
