ghost use Rattle.std.specs.Prelude.{◌<◌, ◌^◌, ◌≡◌, ◌≢◌, ◌≤◌, Err, IfOk, IfSome, MatchResult, Ok, is_some, ℕ};
ghost use Rattle.{net_file.specs.KeyTexts.key_text, net_plan.specs.Ranges.IsWithin, toml.specs.Data.{as_table, get}};
ghost use Rattle.net_file.specs.{Numbering.{IsBelow, numbering}, declared.refusal.FileRefusal.TheVariants.Range};
ghost use Rattle.net_file.specs.Reading.{are_keys_of, are_tables, has_only, integer_of, is_key_of, named, nothing_else};
ghost use Rattle.net_file.specs.Reading.{number, spot, tables, text_of, time, time_if_there, value_of, whole, word};
ghost use Rattle.net_file.specs.Values.{channel_of, ethertype_of, hex_number, name_of, role_of, speed_of, way_of};
ghost use Rattle.{net_plan.specs.NameText.IsNameText, toml.specs.View.{items_view, table_view, view}};

use crate::names::Names;
use crate::spots::TableSpot;
use crate::values::{
    channel_of, ethertype_of, mac_of, marker_of, name_of, number_within, role_of, speed_of, way_of,
};
use crate::{FileRefusal, KeyName, Spot};
use net_plan::{Name, Role, Way};
use toml::{Table, Value};
use tte_units::frames::{Channel, Mac};
use tte_units::{Speed, Units};

/// A table of a network file, to be read key by key. Each reader of a key tells first that the key
/// is missing, then that its value is of another kind, then that it is out of range.
#[derive(Clone, Copy)]
pub(crate) struct Reader<'a> {
    pub(crate) place: TableSpot,
    pub(crate) table: &'a Value,
}

impl<'a> Reader<'a> {
    fn spot(&self, key: KeyName) -> Spot
        ensures { result ≡ spot self.now.place key }
    {
        Spot {
            table: self.place.table,
            index: self.place.index,
            key,
        }
    }

    fn out_of_range(&self, key: KeyName) -> FileRefusal
        ensures { result ≡ Range (spot self.now.place key) }
    {
        FileRefusal::Range(self.spot(key))
    }

    /// Whether the key is there.
    fn has(&self, key: KeyName) -> bool
        ensures { result ≡ is_some (get (key_text key) (view self.now.table.now)) }
    {
        self.table.get(key.text()).is_some()
    }

    // The value of a key, of whatever kind.
    #[tactic(auto, unfolding(crate::specs::Reading::value_of))]
    fn value(&self, key: KeyName) -> Result<&'a Value, FileRefusal>
        ensures { MatchResult result (λ v. value_of self.now.place key (view self.now.table.now) ≡ Ok (view v.now))
            (λ e. value_of self.now.place key (view self.now.table.now) ≡ Err e) }
    {
        match self.table.get(key.text()) {
            None => Err(FileRefusal::Missing(self.spot(key))),
            Some(value) => Ok(value),
        }
    }

    #[tactic(auto, unfolding(crate::specs::Reading::integer_of))]
    fn integer(&self, key: KeyName) -> Result<i64, FileRefusal>
        ensures { result ≡ integer_of self.now.place key (view self.now.table.now) }
    {
        let value = self.value(key)?;
        value.as_integer().ok_or(FileRefusal::Kind(self.spot(key)))
    }

    /// A whole number from `low` to `high`.
    #[tactic(auto, unfolding(crate::specs::Reading::whole, crate::specs::Reading::number))]
    pub(crate) fn whole(&self, low: u64, high: u64, key: KeyName) -> Result<u64, FileRefusal>
        ensures value { result ≡ whole low high self.now.place key (view self.now.table.now) }
        ensures least { IfOk result (λ n. low ≤ n) }
        ensures most { IfOk result (λ n. n ≤ high) }
    {
        let number = self.integer(key)?;
        number_within(low, high, number).ok_or(self.out_of_range(key))
    }

    /// A number of units of time from `low` to `high`, which is less than 2^63.
    #[tactic(auto, unfolding(crate::specs::Reading::time))]
    pub(crate) fn time(&self, low: u64, high: u64, key: KeyName) -> Result<Units, FileRefusal>
        requires { high < 2 ^ 63 }
        ensures within { IfOk result (IsWithin low high) }
        ensures value { result ≡ time low high self.now.place key (view self.now.table.now) }
    {
        let number = self.whole(low, high, key)?;
        Ok(Units::from_amount(number))
    }

    /// A number of units of time from `low` to `high`, which is less than 2^63. It is None where
    /// the key is absent.
    #[tactic(auto, unfolding(crate::specs::Reading::time_if_there))]
    pub(crate) fn time_if_there(
        &self,
        low: u64,
        high: u64,
        key: KeyName,
    ) -> Result<Option<Units>, FileRefusal>
        requires { high < 2 ^ 63 }
        ensures within { IfOk result (λ t. IfSome t (IsWithin low high)) }
        ensures value { result ≡ time_if_there low high self.now.place key (view self.now.table.now) }
    {
        if !self.has(key) {
            return Ok(None);
        }
        let time = self.time(low, high, key)?;
        Ok(Some(time))
    }

    /// The speed of a link, which is 100 or 1000.
    #[tactic(auto, unfolding(crate::specs::Reading::number))]
    pub(crate) fn speed(&self, key: KeyName) -> Result<Speed, FileRefusal>
        ensures { result ≡ number speed_of self.now.place key (view self.now.table.now) }
    {
        let number = self.integer(key)?;
        speed_of(number).ok_or(self.out_of_range(key))
    }

    /// An EtherType of time-triggered frames.
    #[tactic(auto, unfolding(crate::specs::Reading::number))]
    pub(crate) fn ethertype(&self, key: KeyName) -> Result<u16, FileRefusal>
        ensures least { IfOk result (λ e. 1536 ≤ e) }
        ensures other { IfOk result (λ e. e ≢ 35101) }
        ensures value { result ≡ number ethertype_of self.now.place key (view self.now.table.now) }
    {
        let number = self.integer(key)?;
        ethertype_of(number).ok_or(self.out_of_range(key))
    }

    // A text, whatever it says.
    #[tactic(auto, unfolding(crate::specs::Reading::text_of))]
    fn text(&self, key: KeyName) -> Result<&'a str, FileRefusal>
        ensures { MatchResult result (λ t. text_of self.now.place key (view self.now.table.now) ≡ Ok t.now)
            (λ e. text_of self.now.place key (view self.now.table.now) ≡ Err e) }
    {
        let value = self.value(key)?;
        match value.as_str() {
            None => Err(FileRefusal::Kind(self.spot(key))),
            Some(text) => Ok(text),
        }
    }

    /// The name of the thing itself.
    #[tactic(auto, unfolding(crate::specs::Reading::word))]
    pub(crate) fn name(&self, key: KeyName) -> Result<Name, FileRefusal>
        ensures meaning { IfOk result IsNameText }
        ensures value { result ≡ word name_of self.now.place key (view self.now.table.now) }
    {
        let text = self.text(key)?;
        name_of(text).ok_or(self.out_of_range(key))
    }

    /// A role.
    #[tactic(auto, unfolding(crate::specs::Reading::word))]
    pub(crate) fn role(&self, key: KeyName) -> Result<Role, FileRefusal>
        ensures { result ≡ word role_of self.now.place key (view self.now.table.now) }
    {
        let text = self.text(key)?;
        role_of(text).ok_or(self.out_of_range(key))
    }

    /// A channel.
    #[tactic(auto, unfolding(crate::specs::Reading::word))]
    pub(crate) fn channel(&self, key: KeyName) -> Result<Channel, FileRefusal>
        ensures { result ≡ word channel_of self.now.place key (view self.now.table.now) }
    {
        let text = self.text(key)?;
        channel_of(text).ok_or(self.out_of_range(key))
    }

    /// A way of a link.
    #[tactic(auto, unfolding(crate::specs::Reading::word))]
    pub(crate) fn way(&self, key: KeyName) -> Result<Way, FileRefusal>
        ensures { result ≡ word way_of self.now.place key (view self.now.table.now) }
    {
        let text = self.text(key)?;
        way_of(text).ok_or(self.out_of_range(key))
    }

    /// An address of 12 hexadecimal digits.
    #[tactic(auto, unfolding(crate::specs::Reading::word))]
    pub(crate) fn mac(&self, key: KeyName) -> Result<Mac, FileRefusal>
        ensures { result ≡ word (hex_number 6) self.now.place key (view self.now.table.now) }
    {
        let text = self.text(key)?;
        mac_of(text).ok_or(self.out_of_range(key))
    }

    /// A marker of 8 hexadecimal digits.
    #[tactic(auto, unfolding(crate::specs::Reading::word))]
    pub(crate) fn marker(&self, key: KeyName) -> Result<u32, FileRefusal>
        ensures { result ≡ word (hex_number 4) self.now.place key (view self.now.table.now) }
    {
        let text = self.text(key)?;
        marker_of(text).ok_or(self.out_of_range(key))
    }

    /// The number of the thing that a text names.
    #[tactic(auto, unfolding(crate::specs::Reading::named))]
    pub(crate) fn named(&self, names: &Names, key: KeyName) -> Result<u32, FileRefusal>
        ensures bound { (bound : ℕ) → IsBelow bound (numbering names.now.numbers) → IfOk result (λ i. i < bound) }
        ensures value { result ≡ named (numbering names.now.numbers) self.now.place key (view self.now.table.now) }
    {
        let text = self.text(key)?;
        names
            .number_of(text)
            .ok_or(FileRefusal::Name(self.spot(key)))
    }

    /// That the table has no key beyond these.
    #[tactic(auto, unfolding(crate::specs::Reading::nothing_else))]
    pub(crate) fn nothing_else(&self, keys: &[KeyName]) -> Result<(), FileRefusal>
        ensures { result ≡ nothing_else keys.now self.now.place (view self.now.table.now) }
    {
        if has_only(self.table, keys) {
            Ok(())
        } else {
            Err(FileRefusal::Unknown(self.place.table, self.place.index))
        }
    }

    /// The tables of an array, which is empty where it is absent.
    #[tactic(auto, unfolding(crate::specs::Reading::tables))]
    pub(crate) fn tables(&self, key: KeyName) -> Result<&'a [Value], FileRefusal>
        ensures { MatchResult result
            (λ vs. tables self.now.place key (view self.now.table.now) ≡ Ok (items_view vs.now))
            (λ e. tables self.now.place key (view self.now.table.now) ≡ Err e) }
    {
        let value = match self.table.get(key.text()) {
            None => return Ok(&[]),
            Some(value) => value,
        };
        match value.as_array() {
            Some(array) if are_tables(array) => Ok(array),
            _ => Err(FileRefusal::Kind(self.spot(key))),
        }
    }
}

fn is_key_of(text: &str, keys: &[KeyName]) -> bool
    ensures { result ≡ is_key_of keys.now text.now }
{
    keys.iter().any(|key| key.text() == text)
}

fn has_only(table: &Value, keys: &[KeyName]) -> bool
    ensures { result ≡ has_only keys.now (as_table (view table.now)) }
{
    match table.as_table() {
        None => true,
        Some(entries) => are_keys_of(entries, keys),
    }
}

fn are_keys_of(entries: &Table, keys: &[KeyName]) -> bool
    ensures { result ≡ are_keys_of keys.now (table_view entries.now) }
{
    'entries: for (text, _value) in entries.iter() {
        if !is_key_of(text.as_str(), keys) {
            return false;
        }
    }
    true
}

fn are_tables(values: &[Value]) -> bool
    ensures { result ≡ are_tables (items_view values.now) }
{
    'values: for value in values {
        if !value.is_table() {
            return false;
        }
    }
    true
}
