//! A long mixed list of edits of a layer, compared with a plain list of its features.

ghost use Rattle.rtree_core.specs.Nodes.{IsLawful};

use crate::edited::Edited;
use crate::layers::seen;
use crate::read_layers::layer_of;
use geom_core::Shape;
use layer_core::{Layer, LayerFault};
use layer_edit_core::LayerEditor;
use rtree_core::{Entry, Node};
use std::alloc::{AllocError, AllocGlobal, Global};
use std::fmt::Write;
use std::random::RandomSource;
use std::test::Fail;
use std::thread::Threads;
use test_data::Random;
use wkt_core::Scale;

/// The number of names that ids are made of.
const NAMES: usize = 400;

/// A feature of the plain list.
#[derive(Clone, Copy)]
struct Held {
    name: usize,
    entry: Entry,
}

/// The id made of a name.
fn id_of(alloc: Global, name: usize) -> Result<String, AllocError> {
    format!(in alloc; "p{name}")
}

/// A layer, and a plain list of its features in layer order.
#[derive(Drop)]
struct Trial {
    edited: Edited,
    list: Vec<Held>,
    next: u32,
}

impl Trial {
    /// A layer of `count` features, read from a file.
    fn read<R: Threads + Sync + RandomSource + AllocGlobal>(
        rt: &R,
        random: &mut Random,
        count: u32,
    ) -> Result<Trial, Fail> {
        let list = listed(rt.alloc(), random, count)?;
        let edited = Edited::of(rt, layer_of_list(rt, &list)?)?;
        Ok(Trial {
            edited,
            list,
            next: count,
        })
    }

    /// The index of the feature with this name in the list.
    fn place(&self, name: usize) -> Option<usize> {
        for (place, held) in self.list.iter().enumerate() {
            if held.name == name {
                return Some(place);
            }
        }
        None
    }

    /// Inserts a feature with a random name, and returns whether editor and list agree on it.
    fn insert(
        &mut self,
        alloc: Global,
        random: &mut Random,
        editor: &mut LayerEditor,
    ) -> Result<bool, Fail> {
        let name = random.below(NAMES);
        let shape = random.shape().ok_or("a shape")?;
        let answer = editor.insert(id_of(alloc, name)?.as_str(), shape);
        if self.place(name).is_some() {
            return Ok(answer == Err(LayerFault::DoubleId));
        }
        self.list.push(Held {
            name,
            entry: Entry {
                shape,
                number: self.next,
            },
        })?;
        self.next = self.next.saturating_add(1);
        Ok(answer == Ok(()))
    }

    /// Removes the feature with a random name, and returns whether editor and list agree on it.
    fn remove(
        &mut self,
        alloc: Global,
        random: &mut Random,
        editor: &mut LayerEditor,
    ) -> Result<bool, Fail> {
        let name = random.below(NAMES);
        let answer = editor.remove(id_of(alloc, name)?.as_str());
        match take(&mut self.list, name) {
            None => Ok(answer == Err(LayerFault::NoSuchId)),
            Some(held) => Ok(answer == Ok(held.entry.shape)),
        }
    }

    /// Makes up to 1,500 edits, of which about `insertions` in nine are insertions, and compares
    /// layer and list after each hundred.
    fn edit(&mut self, alloc: Global, random: &mut Random, insertions: usize) -> Result<(), Fail> {
        for _ in 0..15 {
            let mut editor = self.edited.take()?;
            self.edit_some(alloc, random, &mut editor, insertions)?;
            self.edited.give(editor)?;
            self.compare(alloc, random)?;
        }
        Ok(())
    }

    /// Makes a hundred edits by one editor, or fewer until hardly a feature is left.
    fn edit_some(
        &mut self,
        alloc: Global,
        random: &mut Random,
        editor: &mut LayerEditor,
        insertions: usize,
    ) -> Result<(), Fail> {
        for _ in 0..100 {
            if !self.edit_once(alloc, random, editor, insertions)? {
                return Err(Fail::new("an edit differs"));
            }
            if self.list.len() < 5 {
                return Ok(());
            }
        }
        Ok(())
    }

    /// Makes one edit, with probability `insertions` in nine an insertion, and returns whether
    /// editor and list agree on it.
    fn edit_once(
        &mut self,
        alloc: Global,
        random: &mut Random,
        editor: &mut LayerEditor,
        insertions: usize,
    ) -> Result<bool, Fail> {
        if random.below(9) < insertions {
            return self.insert(alloc, random, editor);
        }
        self.remove(alloc, random, editor)
    }

    /// Checks that list, tree, counts and some windows agree.
    fn compare(&mut self, alloc: Global, random: &mut Random) -> Result<(), Fail> {
        if self.agrees(alloc, random)? {
            return Ok(());
        }
        Err(Fail::new("the list, the tree, a count or a window differs"))
    }

    /// Whether list, tree, counts and some windows agree.
    fn agrees(&mut self, alloc: Global, random: &mut Random) -> Result<bool, Fail> {
        let windows = windows(random).ok_or("four windows")?;
        Ok(self.has_list() && self.has_counts() && self.agrees_on(alloc, &windows)?)
    }

    /// Whether the lookups by id, the tree and these windows agree.
    fn agrees_on(&mut self, alloc: Global, windows: &[Shape]) -> Result<bool, AllocError> {
        Ok(self.finds(alloc)? && self.has_entries(alloc)? && self.agrees_at_all(alloc, windows)?)
    }

    /// Whether the tree finds the features of the list that meet each of these windows.
    fn agrees_at_all(&self, alloc: Global, windows: &[Shape]) -> Result<bool, AllocError> {
        for window in windows {
            if !self.agrees_at(alloc, window)? {
                return Ok(false);
            }
        }
        Ok(true)
    }

    /// Whether the layer has the features of the list, in its order.
    fn has_list(&self) -> bool {
        let mut features = self.edited.layer.iter();
        for held in &self.list {
            let Some(feature) = features.next() else {
                return false;
            };
            let shape = *feature.shape;
            if feature.number != held.entry.number || shape != held.entry.shape {
                return false;
            }
        }
        features.next().is_none() && self.edited.layer.len() == self.list.len()
    }

    /// Whether an editor finds the features of the list by their ids, and no other.
    fn finds(&mut self, alloc: Global) -> Result<bool, AllocError> {
        let editor = self.edited.take()?;
        let are_found = self.are_found(alloc, &editor)?;
        self.edited.give(editor)?;
        Ok(are_found)
    }

    fn are_found(&self, alloc: Global, editor: &LayerEditor) -> Result<bool, AllocError> {
        for name in 0..NAMES {
            let found = editor.find(id_of(alloc, name)?.as_str());
            let held = self.place(name).and_then(|place| self.list.get(place));
            if found != held.map(|held| (held.entry.number, &held.entry.shape)) {
                return Ok(false);
            }
        }
        Ok(true)
    }

    /// Whether the tree has the entries of the list.
    fn has_entries(&self, alloc: Global) -> Result<bool, AllocError> {
        let mut entries = Vec::new(alloc);
        if let Some(root) = self.edited.layer.tree().root() {
            gather(root, &mut entries)?;
        }
        entries.sort_unstable_by_key(|entry| entry.number);
        let mut held = Vec::new(alloc);
        for feature in &self.list {
            held.push(feature.entry)?;
        }
        Ok(entries.as_slice() == held.as_slice())
    }

    /// Whether the counts are those of the list.
    fn has_counts(&self) -> bool {
        let mut counts = [0u32; 3];
        for held in &self.list {
            if let Some(count) = counts.get_mut(usize::from(held.entry.shape.dim())) {
                *count = count.saturating_add(1);
            }
        }
        let stats = self.edited.layer.stats();
        stats.features as usize == self.list.len()
            && [stats.points, stats.segments, stats.rectangles] == counts
            && stats.height == self.edited.layer.tree().height()
    }

    /// Whether the tree finds the features of the list that meet a window.
    fn agrees_at(&self, alloc: Global, window: &Shape) -> Result<bool, AllocError> {
        let mut numbers = Vec::new(alloc);
        for held in &self.list {
            if held.entry.shape.meets(window) {
                numbers.push(held.entry.number)?;
            }
        }
        let found = self.edited.layer.tree().window(alloc, window)?;
        Ok(found.as_slice() == numbers.as_slice())
    }
}

/// A window over all shapes, two others, and one that covers these; never `None`.
fn windows(random: &mut Random) -> Option<[Shape; 4]> {
    let all = Shape::new(-1000, -1000, 2000, 2000)?;
    let (one, two) = (random.shape()?, random.shape()?);
    Some([all, one, two, one.cover(&two)])
}

/// `count` features, whose names are their numbers.
fn listed(alloc: Global, random: &mut Random, count: u32) -> Result<Vec<Held>, Fail> {
    let mut list = Vec::new(alloc);
    for number in 0..count {
        let shape = random.shape().ok_or("a shape")?;
        let entry = Entry { shape, number };
        let name = number as usize;
        list.push(Held { name, entry })?;
    }
    Ok(list)
}

/// Writes the row of a feature, or returns `None` if an allocation fails.
fn write_row(alloc: Global, file: &mut String, held: &Held) -> Option<()> {
    let text = wkt_core::print(alloc, &held.entry.shape, Scale::new(0)?).ok()?;
    writeln!(file, "p{},\"{text}\"", held.name).ok()
}

/// The file of a layer of these features, or `None` if an allocation fails.
fn file_of(alloc: Global, list: &[Held]) -> Option<String> {
    let mut file = String::from_str(alloc, "id,wkt\n").ok()?;
    for held in list {
        write_row(alloc, &mut file, held)?;
    }
    Some(file)
}

/// The layer read from that file.
fn layer_of_list<R: Threads + Sync + RandomSource + AllocGlobal>(
    rt: &R,
    list: &[Held],
) -> Result<Layer, Fail> {
    let file = file_of(rt.alloc(), list).ok_or("a file")?;
    layer_of(rt, file.as_bytes())
}

/// Removes the feature with this name from a list, if it is there.
fn take(list: &mut Vec<Held>, name: usize) -> Option<Held> {
    for (place, held) in list.iter().enumerate() {
        if held.name == name {
            return Some(list.remove(place));
        }
    }
    None
}

/// Adds the entries below a node.
fn gather(node: &Node, entries: &mut Vec<Entry>) -> Result<(), AllocError>
    requires { IsLawful node.now }
{
    if node.is_leaf() {
        for entry in node.entries() {
            entries.push(*entry)?;
        }
        return Ok(());
    }
    for child in node.children() {
        gather(child, entries)?;
    }
    Ok(())
}

/// Checks the trial, and then alternates mostly insertions with mostly removals.
fn edit_in_turn(trial: &mut Trial, alloc: Global, random: &mut Random) -> Result<(), Fail> {
    trial.compare(alloc, random)?;
    for insertions in [6, 1, 7, 0] {
        trial.edit(alloc, random, insertions)?;
    }
    Ok(())
}

#[test]
fn mixed_edits(rt: HostRuntime) -> Result<(), Fail> {
    let mut random = Random::new(1);
    let trial = Trial::read(&rt, &mut random, 300)?;
    seen(trial, |trial| edit_in_turn(trial, rt.alloc(), &mut random))
}
