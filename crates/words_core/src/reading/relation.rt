//! Reading the word of a relation.

ghost use Rattle.std.specs.Prelude.{◌≡◌, ◌≢◌, IfOk, IfErr, string_bytes};
ghost use Rattle.relation_core.specs.Relations.{Spells, SpellsNothing};
ghost use Rattle.words_core.specs.Readings.{IsNoRelation, IsRelationFault, hint_text};

use crate::hint::nearest_relation;
use crate::words::WordFault;
use relation_core::{MaskFault, Relation};
use std::alloc::{AllocError, Global};

/// Reads a relation: a name or a mask.
pub fn read_relation(alloc: Global, word: &str) -> Result<Relation, WordFault>
    ensures ok { IfOk result (λ relation. Spells relation word.now) }
    ensures err { IfErr result (λ f. f ≢ WordFault.Memory → IsRelationFault word.now f) }
{
    match Relation::read(word.as_bytes()) {
        Ok(relation) => Ok(relation),
        Err(fault) => Err(relation_fault(alloc, word, fault)?),
    }
}

/// The fault of a word that is no relation: if it is close to a name, that of an unknown relation
/// with this name as a hint, even if it has the nine letters of a mask; else that of the mask.
fn relation_fault(alloc: Global, word: &str, fault: MaskFault) -> Result<WordFault, AllocError>
    requires reason { IsNoRelation word.now fault }
    requires unknown { SpellsNothing word.now }
    ensures { IfOk result (IsRelationFault word.now) }
{
    let Some(name) = nearest_relation(alloc, word)? else {
        return Ok(WordFault::Relation(fault));
    };
    let text = hinted(alloc, name)?;
    Ok(WordFault::Usage { text, help: false })
}

/// The line of an unknown relation, and below it the name that was probably meant.
fn hinted(alloc: Global, name: &str) -> Result<String, AllocError>
    ensures { IfOk result (λ text. string_bytes text ≡ hint_text name.now) }
{
    let reason = MaskFault::Length.text();
    format!(in alloc; "rjoin: --relation: {reason}\ndid you mean {name}?\n")
}
