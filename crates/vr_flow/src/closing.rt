ghost use Rattle.std.specs.Prelude.{◌≡◌, ℕ, true, false, ◌<◌, ◌^◌, length, All, IfOk, IsTrue, ◌↔◌, MatchOption, OnOk, slice_index_or};
ghost use Rattle.vr_flow.specs.Closing.{AreLed, AreLeads, Closes, IsObserved, AreModifiers};
ghost use Rattle.vr_flow.specs.Places.{has_place, Meet};

use crate::flow::Flow;
use crate::places::PlaceSet;
use std::alloc::Global;
use vr_base::NoMemory;

/// Whether the pipeline at a place is executable and modifies one of the regions.
fn is_led(pipeline: &Flow, place: u32, executable: &PlaceSet, regions: &PlaceSet) -> bool
    requires { length regions.now ≡ length pipeline.now.modified }
    ensures { IsTrue result
        ↔ ((has_place executable.now place ≡ true) × Meet pipeline.now.modified regions.now) }
{
    executable.has(place) && pipeline.modified.meets(regions)
}

/// The executable pipelines that modify one of the regions.
pub fn led_by(
    alloc: Global,
    pipelines: &[Flow],
    executable: &PlaceSet,
    regions: &PlaceSet,
) -> Result<PlaceSet, NoMemory>
    requires room { All (λ flow. length flow.modified ≡ length regions.now) pipelines.now }
    requires few { length pipelines.now < 2 ^ 32 }
    ensures { IfOk result (AreLed pipelines.now executable.now regions.now) }
{
    let mut led = PlaceSet::new(alloc, pipelines.len() as u32)?;
    for (place, pipeline) in pipelines.iter().enumerate() {
        let is_in = is_led(pipeline, place as u32, executable, regions);
        led.put(place as u32, is_in);
    }
    Ok(led)
}

/// For each pipeline the executable ones that modify what it observes.
pub fn leads(
    alloc: Global,
    pipelines: &[Flow],
    executable: &PlaceSet,
) -> Result<Vec<PlaceSet>, NoMemory>
    requires room { All (λ flow. All (λ other. length other.modified ≡ length flow.observed)
        pipelines.now) pipelines.now }
    requires few { length pipelines.now < 2 ^ 32 }
    ensures { IfOk result (λ leads. AreLeads pipelines.now executable.now leads.items) }
{
    let mut all = Vec::with_capacity(alloc, pipelines.len())?;
    for pipeline in pipelines {
        all.push(led_by(alloc, pipelines, executable, &pipeline.observed)?)?;
    }
    Ok(all)
}

/// The first place of a set that isn't done yet.
fn next_place(set: &PlaceSet, done: &[bool]) -> Option<usize>
    requires { length done.now < 2 ^ 32 }
    ensures { MatchOption result
        ((place : ℕ) → place < length done.now → has_place set.now place ≡ true
        → slice_index_or done.now place false ≡ true)
        (λ place. (place < length done.now) × (has_place set.now place ≡ true)
        × (slice_index_or done.now place true ≡ false)) }
{
    for (place, is_done) in done.iter().enumerate() {
        if !*is_done && set.has(place as u32) {
            return Some(place);
        }
    }
    None
}

/// Adds all that is reached from a set.
pub fn close(alloc: Global, led: &mut PlaceSet, leads: &[PlaceSet]) -> Result<(), NoMemory>
    requires rooms { All (λ lead. length lead ≡ length led.old) leads.now }
    requires few { length leads.now < 2 ^ 32 }
    ensures room { length led.new ≡ length led.old }
    ensures closes { OnOk result (Closes leads.now led.old led.new) }
{
    let mut done = vec![in alloc; false; leads.len()]?;
    while let Some(place) = next_place(led, &done) {
        led.add(&leads[place], true);
        done[place] = true;
    }
    Ok(())
}

/// The regions that are observed first, and those that the pipelines which are led to observe.
pub fn observed_by(
    first: &PlaceSet,
    pipelines: &[Flow],
    led: &PlaceSet,
) -> Result<PlaceSet, NoMemory>
    requires room { All (λ flow. length flow.observed ≡ length first.now) pipelines.now }
    requires few { length pipelines.now < 2 ^ 32 }
    ensures { IfOk result (IsObserved pipelines.now first.now led.now) }
{
    let mut regions = first.copy()?;
    for (place, pipeline) in pipelines.iter().enumerate() {
        regions.add(&pipeline.observed, led.has(place as u32));
    }
    Ok(regions)
}

/// The caller, and the identities that modify one of the regions.
pub fn modifiers(
    alloc: Global,
    flows: &[Flow],
    caller: u32,
    regions: &PlaceSet,
) -> Result<PlaceSet, NoMemory>
    requires room { All (λ flow. length flow.modified ≡ length regions.now) flows.now }
    requires few { length flows.now < 2 ^ 32 }
    requires caller { caller < length flows.now }
    ensures { IfOk result (AreModifiers flows.now caller regions.now) }
{
    let mut found = PlaceSet::new(alloc, flows.len() as u32)?;
    found.put(caller, true);
    for (place, flow) in flows.iter().enumerate() {
        found.put(place as u32, flow.modified.meets(regions));
    }
    Ok(found)
}
