//! Laws of saved maps.

ghost use Rattle.std.specs.Prelude.{◌≡◌, ◌≢◌, ℕ, ◌<◌, ◌^◌, List, length, take};
ghost use Rattle.std.specs.List.{AllByRecursion};
ghost use Rattle.lgm_wire.specs.declared.chain_hash.ChainHash.{ChainHash};
ghost use Rattle.lgm_store.specs.Rows.{Rows};
ghost use Rattle.lgm_save.specs.declared.record.Record.{Record};
ghost use Rattle.lgm_save.specs.Records.{IsRecord, records_of};
ghost use Rattle.lgm_save.specs.Saved.{saved_as, saved};
ghost use Rattle.lgm_save.specs.Loaded.{IsLoaded, IsNotSaved};
ghost use Rattle.lgm_save.specs.Changed.{IsChangedAtOne};

use crate::saving::Saving;
use lgm_store::Map;

/// What is loaded of the bytes of a saved map is that map, with its bans, and they are never refused. A call does nothing: its
/// contract is the law.
pub fn saved_is_loaded(network: &Map, saving: &Saving<'_>)
    requires { saving.now ≡ records_of network.now }
    ensures same { (chain : ChainHash) (rows : Rows) → IsLoaded chain (saved chain network.now) rows → rows ≡ network.now }
    ensures taken { (chain : ChainHash) → IsNotSaved chain (saved chain network.now) → ⊥ }
{
    network.rows_are_lawful();
    network.bytes_encode_rows();
    saving.records_are_lawful();
}

/// Bytes of which one was changed are refused, and so are those that were cut off, and those of another chain. A call does
/// nothing: its contract is the law.
pub fn damage_is_refused()
    ensures changed { (chain : ChainHash) (records : List Record) (bytes : List ℕ) → AllByRecursion IsRecord records
        → IsChangedAtOne (saved_as chain records) bytes → IsNotSaved chain bytes }
    ensures cut { (chain : ChainHash) (records : List Record) (n : ℕ) → length (saved_as chain records) < 2 ^ 64
        → n < length (saved_as chain records) → IsNotSaved chain (take n (saved_as chain records)) }
    ensures chain { (chain other : ChainHash) (records : List Record) → length chain.0 ≡ length other.0 → chain ≢ other
        → IsNotSaved other (saved_as chain records) }
{}
