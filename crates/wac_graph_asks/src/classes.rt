//! Which asks are one outer import, and how it is spelled.

ghost use Rattle.std.specs.Prelude.{◌≡◌, ◌<◌, [], Some, IfOk, OnOk, length};
ghost use Rattle.semver.specs.Identifiers.{parts_of};
ghost use Rattle.wac_types_base.specs.declared.item.ItemKind.{ItemKind};
ghost use Rattle.wac_types_base.specs.Stated.{stated_of, identifier_of};
ghost use Rattle.wac_types_names.specs.Versions.{version_cmp};
ghost use Rattle.wac_composition.specs.Names.{has_track, is_greater};
ghost use Rattle.wac_composition.specs.Classes.{identifier_asked};
ghost use Rattle.wac_graph_asks.specs.AsksIn.{ask_in, asks_in};
ghost use Rattle.wac_graph_asks.specs.Joining.{label_at, LeadsTo, Joins, AreSettled, JoinsUnder, JoinsBy};
ghost use Rattle.wac_graph_asks.specs.Words.{words_of, track_word, is_later_on, respelled};
ghost use Rattle.wac_graph_asks.specs.Classed.{AreLabels, AreSpellings};
ghost use Rattle.wac_graph_asks.specs.Named.{text_in, words_in, all_words, AddsNames, AreBefore, FirstsBefore, JoinsAsk, JoinsNames, LabelsNames, SpellsNames};

use crate::asks::Ask;
use semver::Version;
use std::alloc::{AllocError, Global};
use std::cmp::Ordering;
use wac_types_base::{InterfaceId, ItemKind, NamedMap, Types};
use wac_types_names::{alternate_lookup_key, is_interface_name};
use wac_types_parts::maps::insert_under;

/// An asked name: its track with its version, and the identifier of the instance that is asked under it.
struct Named<'a> {
    name: &'a str,
    track: Option<(&'a str, Version)>,
    identifier: Option<&'a str>,
}

impl Drop for Named<'_> {
    fn drop(self) {
        let Named {
            name: _,
            track: _,
            identifier: _,
        } = self;
    }
}

/// The identifier of an interface, if it stands and has one.
fn identifier(types: &Types, id: InterfaceId) -> Option<&str>
    ensures { text_in result ≡ identifier_of (stated_of types.now (ItemKind.Instance id)) }
{
    if !types.has(ItemKind::Instance(id)) {
        return None;
    }
    match &types.interface(id).id {
        Some(text) => Some(text.as_str()),
        None => None,
    }
}

/// The identifier of an instance that is asked under the name of an interface.
fn identifier_asked<'a>(
    alloc: Global,
    types: &'a Types,
    ask: &Ask,
) -> Result<Option<&'a str>, AllocError>
    ensures { IfOk result (λ o. text_in o ≡ identifier_asked (ask_in types.now ask.now)) }
{
    types.see_acyclic();
    let ItemKind::Instance(id) = ask.item else {
        return Ok(None);
    };
    if is_interface_name(alloc, ask.name.as_str())? {
        Ok(identifier(types, id))
    } else {
        Ok(None)
    }
}

fn name_asked<'a>(alloc: Global, types: &'a Types, ask: &'a Ask) -> Result<Named<'a>, AllocError>
    ensures { IfOk result (λ n. words_in n ≡ words_of (ask_in types.now ask.now)) }
{
    let name = ask.name.as_str();
    let identifier = identifier_asked(alloc, types, ask)?;
    let track = alternate_lookup_key(alloc, name)?;
    Ok(Named {
        name,
        track,
        identifier,
    })
}

/// Whether a version is greater than another.
#[tactic(auto, unfolding(wac_types_names::specs::Versions::version_cmp))]
fn is_greater(version: &Version, other: &Version) -> bool
    ensures { result ≡ is_greater (version_cmp (parts_of version.now) (parts_of other.now)) }
{
    version.cmp(other) == Ordering::Greater
}

impl Named<'_> {
    /// The text that names its track.
    fn track_word(&self) -> Option<&str>
        ensures { text_in result ≡ track_word (words_in self.now) }
    {
        match &self.track {
            Some((track, _)) => Some(track),
            None => None,
        }
    }

    /// Whether it is on the other's track, with a greater version.
    fn is_later(&self, other: &Named<'_>) -> bool
        ensures { result ≡ is_later_on (words_in self.now).track (words_in other.now).track }
    {
        match (&self.track, &other.track) {
            (Some((track, version)), Some((other, before))) => {
                track == other && is_greater(version, before)
            }
            _ => false,
        }
    }
}

/// The classes of asks, each called by the place of its first ask.
pub struct Classes {
    /// Of each ask.
    pub labels: Vec<usize>,
    /// By the class, the ask that spells it.
    pub spellings: Vec<usize>,
}

impl Drop for Classes {
    fn drop(self) {
        let Classes {
            labels: _,
            spellings: _,
        } = self;
    }
}

/// The place that is kept there, or that place itself.
pub(crate) fn place_at(places: &[usize], at: usize) -> usize
    ensures { result ≡ label_at places.now at }
{
    match places.get(at) {
        Some(place) => *place,
        None => at,
    }
}

/// The first of the asks that are joined with this one so far.
fn first_of(labels: &[usize], at: usize) -> usize
    ensures { LeadsTo (label_at labels.now) at result }
{
    let mut first = at;
    let mut before = place_at(labels, at);
    while before < first {
        first = before;
        before = place_at(labels, first);
    }
    first
}

/// Makes two classes one.
fn join(labels: &mut Vec<usize>, a: usize, b: usize)
    requires a { a < length labels.old.items }
    requires b { b < length labels.old.items }
    ensures { Joins a b labels.old.items labels.new.items }
{
    let first = first_of(labels, a);
    let second = first_of(labels, b);
    if first < second {
        labels[second] = first;
    } else {
        labels[first] = second;
    }
}

/// Joins an ask with the first that has a word, if there is one.
fn join_by(
    alloc: Global,
    firsts: &mut NamedMap<usize>,
    labels: &mut Vec<usize>,
    word: &str,
    at: usize,
) -> Result<(), AllocError>
    requires at { at < length labels.old.items }
    requires firsts { AreBefore (length labels.old.items) firsts.old }
    ensures { OnOk result (JoinsUnder word.now at firsts.old firsts.new labels.old.items labels.new.items) }
{
    if let Some(first) = firsts.get(word) {
        join(labels, *first, at);
        return Ok(());
    }
    insert_under(alloc, firsts, word, at)
}

/// Joins an ask with the first that has its word, if it has one.
fn join_if(
    alloc: Global,
    firsts: &mut NamedMap<usize>,
    labels: &mut Vec<usize>,
    word: Option<&str>,
    at: usize,
) -> Result<(), AllocError>
    requires at { at < length labels.old.items }
    requires firsts { AreBefore (length labels.old.items) firsts.old }
    ensures { OnOk result (JoinsBy (text_in word.entry) at firsts.old firsts.new labels.old.items labels.new.items) }
{
    match word {
        Some(word) => join_by(alloc, firsts, labels, word, at),
        None => Ok(()),
    }
}

/// The first asks of names, tracks and identifiers.
struct Firsts {
    by_name: NamedMap<usize>,
    by_track: NamedMap<usize>,
    by_identifier: NamedMap<usize>,
}

impl Drop for Firsts {
    fn drop(self) {
        let Firsts {
            by_name: _,
            by_track: _,
            by_identifier: _,
        } = self;
    }
}

impl Firsts {
    fn new(alloc: Global) -> Self
        ensures names { result.by_name ≡ [] }
        ensures tracks { result.by_track ≡ [] }
        ensures identifiers { result.by_identifier ≡ [] }
    {
        Firsts {
            by_name: NamedMap::new(alloc),
            by_track: NamedMap::new(alloc),
            by_identifier: NamedMap::new(alloc),
        }
    }
}

/// Joins an ask with the first of its name, of its track and of its identifier.
fn join_ask(
    alloc: Global,
    name: &Named<'_>,
    firsts: &mut Firsts,
    labels: &mut Vec<usize>,
    at: usize,
) -> Result<(), AllocError>
    requires at { at ≡ length labels.old.items }
    requires firsts { FirstsBefore at firsts.old }
    ensures { OnOk result (JoinsAsk (words_in name.now) at firsts.old firsts.new labels.old.items labels.new.items) }
{
    labels.push(at)?;
    join_if(alloc, &mut firsts.by_name, labels, Some(name.name), at)?;
    join_if(alloc, &mut firsts.by_track, labels, name.track_word(), at)?;
    join_if(
        alloc,
        &mut firsts.by_identifier,
        labels,
        name.identifier,
        at,
    )
}

/// Joins each ask with those before it.
fn join_asks(
    alloc: Global,
    names: &[Named<'_>],
    firsts: &mut Firsts,
    labels: &mut Vec<usize>,
) -> Result<(), AllocError>
    requires labels { labels.old.items ≡ [] }
    requires names { firsts.old.by_name ≡ [] }
    requires tracks { firsts.old.by_track ≡ [] }
    requires identifiers { firsts.old.by_identifier ≡ [] }
    ensures { OnOk result (JoinsNames names.now labels.new.items) }
{
    for (at, name) in names.iter().enumerate() {
        join_ask(alloc, name, firsts, labels, at)?;
    }
    Ok(())
}

/// Adds the asks, each joined with those before it.
fn push_labels(
    alloc: Global,
    names: &[Named<'_>],
    labels: &mut Vec<usize>,
) -> Result<(), AllocError>
    requires { labels.old.items ≡ [] }
    ensures { OnOk result (JoinsNames names.now labels.new.items) }
{
    let mut firsts = Firsts::new(alloc);
    join_asks(alloc, names, &mut firsts, labels)
}

/// Makes each label the first ask of its class.
fn settle(labels: &mut Vec<usize>)
    ensures { AreSettled labels.old.items labels.new.items }
{
    for at in 0..labels.len() {
        let first = first_of(labels, at);
        labels[at] = first;
    }
}

/// The classes: asks of one name, one track or one identifier are joined.
fn labels_of(alloc: Global, names: &[Named<'_>]) -> Result<Vec<usize>, AllocError>
    ensures { IfOk result (λ labels. LabelsNames names.now labels.items) }
{
    let mut labels = Vec::new(alloc);
    push_labels(alloc, names, &mut labels)?;
    settle(&mut labels);
    Ok(labels)
}

/// The ask that spells a class, if this one is later on the track of the one that spells it so far.
fn respell(names: &[Named<'_>], best: &mut Vec<usize>, class: usize, name: &Named<'_>, at: usize)
    ensures { best.new.items ≡ respelled (all_words names.now) best.old.items class (words_in name.now) at }
{
    if let Some(other) = names.get(place_at(best, class)) {
        if name.is_later(other) {
            if let Some(place) = best.get_mut(class) {
                *place = at;
            }
        }
    }
}

/// Adds of each class the ask of greatest version on the track of its first ask.
fn push_spellings(
    names: &[Named<'_>],
    labels: &[usize],
    best: &mut Vec<usize>,
) -> Result<(), AllocError>
    requires { best.old.items ≡ [] }
    ensures { OnOk result (SpellsNames names.now labels.now best.new.items) }
{
    for (at, name) in names.iter().enumerate() {
        best.push(at)?;
        respell(names, best, place_at(labels, at), name, at);
    }
    Ok(())
}

/// Of each class the ask of greatest version on the track of its first ask.
fn spellings_of(
    alloc: Global,
    names: &[Named<'_>],
    labels: &[usize],
) -> Result<Vec<usize>, AllocError>
    ensures { IfOk result (λ best. SpellsNames names.now labels.now best.items) }
{
    let mut best = Vec::new(alloc);
    push_spellings(names, labels, &mut best)?;
    Ok(best)
}

/// Adds the asked names.
fn push_names<'a>(
    alloc: Global,
    types: &'a Types,
    asks: &'a [Ask],
    names: &mut Vec<Named<'a>>,
) -> Result<(), AllocError>
    ensures { OnOk result (AddsNames types.now asks.now names.old.items names.new.items) }
{
    for ask in asks {
        names.push(name_asked(alloc, types, ask)?)?;
    }
    Ok(())
}

/// The classes of asked names.
fn classes_of_names(alloc: Global, names: &[Named<'_>]) -> Result<Classes, AllocError>
    ensures labels { IfOk result (λ c. LabelsNames names.now c.labels.items) }
    ensures spellings { IfOk result (λ c. SpellsNames names.now c.labels.items c.spellings.items) }
{
    let labels = labels_of(alloc, names)?;
    let spellings = spellings_of(alloc, names, &labels)?;
    Ok(Classes { labels, spellings })
}

/// The classes of asks.
pub fn classes_of(alloc: Global, types: &Types, asks: &[Ask]) -> Result<Classes, AllocError>
    ensures labels { IfOk result (λ c. AreLabels (asks_in types.now asks.now) c.labels.items) }
    ensures spellings { IfOk result (λ c. AreSpellings (asks_in types.now asks.now) c.labels.items c.spellings.items) }
{
    let mut names = Vec::new(alloc);
    push_names(alloc, types, asks, &mut names)?;
    classes_of_names(alloc, &names)
}

/// Whether a name is on a track.
pub(crate) fn has_track(alloc: Global, name: &str) -> Result<bool, AllocError>
    ensures { IfOk result (λ r. r ≡ has_track name.now) }
{
    let key = alternate_lookup_key(alloc, name)?;
    Ok(key.is_some())
}
