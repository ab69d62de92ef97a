//! A table of the settings, and the readers of its keys.

ghost use Rattle.std.specs.Prelude.{◌≡◌, ◌≢◌, ◌≤◌, map, IfOk, IfErr, Some, None, option_map};
ghost use Rattle.toml.specs.Data.{get_member};
ghost use Rattle.toml.specs.View.{view, table_view};
ghost use Rattle.fwd_settings.specs.Kinds.{Reads, number_key, optional_number_key, flag_key, when_full_key, text_key, optional_text_key, required_text_key, optional_path_key, digits_key, address_key, listen_key_or, required_address_key, required_pattern_key, required_list_key, optional_list_key, fault_at, setting_at};
ghost use Rattle.fwd_settings.specs.Keys as keys;

use crate::fault::SettingsFault;
use crate::ranges::{RETRY_MAX_DEFAULT, WAIT_MAX};
use crate::settings::{ListenAddress, WhenFull};
use crate::table_path::{Flaw, TablePath};
use crate::values::{
    address_in, allowed_list_in, digits_in, flag_in, list_in, number_in, path_in, socket_path_in,
    text_in, when_full_in,
};
use fwd_base::Text;
use fwd_match::{Pattern, PatternFault};
use std::alloc::Global;
use std::net::SocketAddr;
use toml::{Table, Value};

/// A table, and where it stands. Each reader of a key answers its setting, or what is wrong with
/// it.
#[derive(Clone, Copy)]
pub struct Section<'a> {
    pub place: TablePath,
    pub table: &'a Table,
}

impl<'a> Section<'a> {
    /// The value under a name.
    pub fn get(&self, name: &str) -> Option<&'a Value>
        ensures { option_map (λ value. view value.now) result
            ≡ get_member name.now (table_view self.now.table.now) }
    {
        self.table.get(name)
    }

    /// A number of its range.
    #[rattlefmt::skip]
    #[tactic(auto, unfolding(
        crate::specs::Kinds::fault_at,
        crate::specs::Kinds::setting_at,
        crate::specs::Kinds::number_key
    ))]
    pub fn number(
        &self,
        alloc: Global,
        name: &str,
        least: u64,
        most: u64,
        default: u64,
    ) -> Result<u64, SettingsFault>
        requires { (least ≤ default) × (default ≤ most) }
        ensures reads { Reads self.now.place (table_view self.now.table.now)
            (number_key name.now least most default) result }
        ensures least { IfOk result (λ number. least ≤ number) }
        ensures most { IfOk result (λ number. number ≤ most) }
    {
        match self.get(name) {
            None => Ok(default),
            Some(value) => match number_in(value, least, most) {
                Ok(number) => Ok(number),
                Err(flaw) => Err(self.place.fault(alloc, name, flaw)),
            },
        }
    }

    /// A number of its range, if there is one.
    #[rattlefmt::skip]
    #[tactic(auto, unfolding(
        crate::specs::Kinds::fault_at,
        crate::specs::Kinds::setting_at,
        crate::specs::Kinds::optional_number_key
    ))]
    pub fn optional_number(
        &self,
        alloc: Global,
        name: &str,
        least: u64,
        most: u64,
    ) -> Result<Option<u64>, SettingsFault>
        ensures { Reads self.now.place (table_view self.now.table.now)
            (optional_number_key name.now least most) result }
    {
        match self.get(name) {
            None => Ok(None),
            Some(value) => match number_in(value, least, most) {
                Ok(number) => Ok(Some(number)),
                Err(flaw) => Err(self.place.fault(alloc, name, flaw)),
            },
        }
    }

    /// The greatest time between two tries, which is no shorter than the time after the first loss.
    pub fn retry_max(&self, alloc: Global, retry_wait: u64) -> Result<u64, SettingsFault>
        requires wait { retry_wait ≡ setting_at (table_view self.now.table.now) keys.retry_wait }
        requires within { retry_wait ≤ WAIT_MAX }
        ensures { Reads self.now.place (table_view self.now.table.now)
            (keys.retry_max (table_view self.now.table.now)) result }
    {
        let default = u64::max(RETRY_MAX_DEFAULT, retry_wait);
        match self.number(alloc, "retry_max", retry_wait, WAIT_MAX, default) {
            Ok(number) => Ok(number),
            Err(fault) => Err(fault),
        }
    }

    /// A count of its range.
    pub fn count(
        &self,
        alloc: Global,
        name: &str,
        least: u16,
        most: u16,
        default: u16,
    ) -> Result<u16, SettingsFault>
        requires { (least ≤ default) × (default ≤ most) }
        ensures reads { Reads self.now.place (table_view self.now.table.now)
            (number_key name.now least most default) result }
        ensures most { IfOk result (λ count. count ≤ most) }
    {
        match self.number(alloc, name, least as u64, most as u64, default as u64) {
            Ok(count) => Ok(count as u16),
            Err(fault) => Err(fault),
        }
    }

    /// True or false.
    #[rattlefmt::skip]
    #[tactic(auto, unfolding(
        crate::specs::Kinds::fault_at,
        crate::specs::Kinds::setting_at,
        crate::specs::Kinds::flag_key
    ))]
    pub fn flag(&self, alloc: Global, name: &str, default: bool) -> Result<bool, SettingsFault>
        ensures { Reads self.now.place (table_view self.now.table.now)
            (flag_key name.now default) result }
    {
        match self.get(name) {
            None => Ok(default),
            Some(value) => match flag_in(value) {
                Ok(flag) => Ok(flag),
                Err(flaw) => Err(self.place.fault(alloc, name, flaw)),
            },
        }
    }

    /// What becomes of a request that an output has no room for.
    #[rattlefmt::skip]
    #[tactic(auto, unfolding(
        crate::specs::Kinds::fault_at,
        crate::specs::Kinds::setting_at,
        crate::specs::Kinds::when_full_key
    ))]
    pub fn when_full(&self, alloc: Global, name: &str) -> Result<WhenFull, SettingsFault>
        ensures { Reads self.now.place (table_view self.now.table.now)
            (when_full_key name.now) result }
    {
        match self.get(name) {
            None => Ok(WhenFull::Close),
            Some(value) => match when_full_in(value) {
                Ok(full) => Ok(full),
                Err(flaw) => Err(self.place.fault(alloc, name, flaw)),
            },
        }
    }

    /// A text of so many bytes.
    #[rattlefmt::skip]
    #[tactic(auto, unfolding(
        crate::specs::Kinds::fault_at,
        crate::specs::Kinds::setting_at,
        crate::specs::Kinds::text_key
    ))]
    pub fn text(
        &self,
        alloc: Global,
        name: &str,
        least: usize,
        most: usize,
        default: &str,
    ) -> Result<Text, SettingsFault>
        ensures { Reads self.now.place (table_view self.now.table.now)
            (text_key name.now least most default.now) result }
    {
        match self.get(name) {
            None => Ok(Text::from_str(alloc, default)?),
            Some(value) => match text_in(value, least, most) {
                Ok(text) => Ok(Text::from_str(alloc, text)?),
                Err(flaw) => Err(self.place.fault(alloc, name, flaw)),
            },
        }
    }

    /// A text of so many bytes, if there is one.
    #[rattlefmt::skip]
    #[tactic(auto, unfolding(
        crate::specs::Kinds::fault_at,
        crate::specs::Kinds::setting_at,
        crate::specs::Kinds::optional_text_key
    ))]
    pub fn optional_text(
        &self,
        alloc: Global,
        name: &str,
        least: usize,
        most: usize,
    ) -> Result<Option<Text>, SettingsFault>
        ensures { Reads self.now.place (table_view self.now.table.now)
            (optional_text_key name.now least most) result }
    {
        match self.get(name) {
            None => Ok(None),
            Some(value) => match text_in(value, least, most) {
                Ok(text) => Ok(Some(Text::from_str(alloc, text)?)),
                Err(flaw) => Err(self.place.fault(alloc, name, flaw)),
            },
        }
    }

    /// A text of so many bytes that has to be there.
    #[rattlefmt::skip]
    #[tactic(auto, unfolding(
        crate::specs::Kinds::fault_at,
        crate::specs::Kinds::setting_at,
        crate::specs::Kinds::required_text_key
    ))]
    pub fn required_text(
        &self,
        alloc: Global,
        name: &str,
        least: usize,
        most: usize,
    ) -> Result<Text, SettingsFault>
        ensures { Reads self.now.place (table_view self.now.table.now)
            (required_text_key name.now least most) result }
    {
        match self.get(name) {
            None => Err(self.place.fault(alloc, name, Flaw::Missing)),
            Some(value) => match text_in(value, least, most) {
                Ok(text) => Ok(Text::from_str(alloc, text)?),
                Err(flaw) => Err(self.place.fault(alloc, name, flaw)),
            },
        }
    }

    /// The path of a socket, if there is one.
    #[rattlefmt::skip]
    #[tactic(auto, unfolding(
        crate::specs::Kinds::fault_at,
        crate::specs::Kinds::setting_at,
        crate::specs::Kinds::optional_path_key
    ))]
    pub fn optional_path(&self, alloc: Global, name: &str) -> Result<Option<Text>, SettingsFault>
        ensures { Reads self.now.place (table_view self.now.table.now)
            (optional_path_key name.now) result }
    {
        match self.get(name) {
            None => Ok(None),
            Some(value) => match socket_path_in(value) {
                Ok(path) => Ok(Some(Text::from_str(alloc, path)?)),
                Err(flaw) => Err(self.place.fault(alloc, name, flaw)),
            },
        }
    }

    /// So many bytes as hex digits.
    #[rattlefmt::skip]
    #[tactic(auto, unfolding(
        crate::specs::Kinds::fault_at,
        crate::specs::Kinds::setting_at,
        crate::specs::Kinds::digits_key
    ))]
    pub fn digits<const N: usize>(
        &self,
        alloc: Global,
        name: &str,
    ) -> Result<Option<[u8; N]>, SettingsFault>
        ensures { Reads self.now.place (table_view self.now.table.now)
            (digits_key name.now N) result }
    {
        match self.get(name) {
            None => Ok(None),
            Some(value) => match digits_in(value) {
                Ok(bytes) => Ok(Some(bytes)),
                Err(flaw) => Err(self.place.fault(alloc, name, flaw)),
            },
        }
    }

    /// An address, if there is one.
    #[rattlefmt::skip]
    #[tactic(auto, unfolding(
        crate::specs::Kinds::fault_at,
        crate::specs::Kinds::setting_at,
        crate::specs::Kinds::address_key
    ))]
    pub fn address(&self, alloc: Global, name: &str) -> Result<Option<SocketAddr>, SettingsFault>
        ensures { Reads self.now.place (table_view self.now.table.now)
            (address_key name.now) result }
    {
        match self.get(name) {
            None => Ok(None),
            Some(value) => match address_in(value) {
                Ok(address) => Ok(Some(address)),
                Err(flaw) => Err(self.place.fault(alloc, name, flaw)),
            },
        }
    }

    /// An address or the path of a Unix socket, or the default.
    #[rattlefmt::skip]
    #[tactic(auto, unfolding(
        crate::specs::Kinds::fault_at,
        crate::specs::Kinds::setting_at,
        crate::specs::Kinds::listen_key_or
    ))]
    pub fn listen_or(
        &self,
        alloc: Global,
        name: &str,
        default: SocketAddr,
    ) -> Result<ListenAddress, SettingsFault>
        ensures { Reads self.now.place (table_view self.now.table.now)
            (listen_key_or name.now default) result }
    {
        let Some(value) = self.get(name) else {
            return Ok(ListenAddress::Tcp(default));
        };
        if let Some(path) = path_in(value) {
            return Ok(ListenAddress::Unix(Text::from_str(alloc, path)?));
        }
        match address_in(value) {
            Ok(address) => Ok(ListenAddress::Tcp(address)),
            Err(flaw) => Err(self.place.fault(alloc, name, flaw)),
        }
    }

    /// An address that has to be there. The definition has 0.0.0.0:0 in place of an absent one,
    /// which no settings are given.
    #[rattlefmt::skip]
    #[tactic(auto, unfolding(
        crate::specs::Kinds::fault_at,
        crate::specs::Kinds::setting_at,
        crate::specs::Kinds::required_address_key
    ))]
    pub fn required_address(&self, alloc: Global, name: &str) -> Result<SocketAddr, SettingsFault>
        ensures { Reads self.now.place (table_view self.now.table.now)
            (required_address_key name.now) result }
    {
        match self.get(name) {
            None => Err(self.place.fault(alloc, name, Flaw::Missing)),
            Some(value) => match address_in(value) {
                Ok(address) => Ok(address),
                Err(flaw) => Err(self.place.fault(alloc, name, flaw)),
            },
        }
    }

    /// A match pattern that has to be there.
    #[rattlefmt::skip]
    #[tactic(auto, unfolding(
        crate::specs::Kinds::fault_at,
        crate::specs::Kinds::setting_at,
        crate::specs::Kinds::required_pattern_key
    ))]
    pub fn required_pattern(&self, alloc: Global, name: &str) -> Result<Pattern, SettingsFault>
        ensures { Reads self.now.place (table_view self.now.table.now)
            (required_pattern_key name.now) result }
    {
        let Some(value) = self.get(name) else {
            return Err(self.place.fault(alloc, name, Flaw::Missing));
        };
        let Some(text) = value.as_str() else {
            return Err(self.place.fault(alloc, name, Flaw::WrongKind));
        };
        match Pattern::read(alloc, text) {
            Ok(pattern) => Ok(pattern),
            Err(PatternFault::Memory) => Err(SettingsFault::Memory),
            Err(_) => Err(self.place.fault(alloc, name, Flaw::BadPattern)),
        }
    }

    /// The members of a list that has to be there, from 1 to so many.
    #[rattlefmt::skip]
    #[tactic(auto, unfolding(
        crate::specs::Kinds::fault_at,
        crate::specs::Kinds::setting_at,
        crate::specs::Kinds::required_list_key
    ))]
    pub fn required_list(
        &self,
        alloc: Global,
        name: &str,
        most: usize,
    ) -> Result<&'a [Value], SettingsFault>
        ensures ok { let members = table_view self.now.table.now in IfOk result (λ values.
            (fault_at self.now.place members (required_list_key name.now most) ≡ None)
            × (map view values.now ≡ setting_at members (required_list_key name.now most))) }
        ensures fault { let members = table_view self.now.table.now in IfErr result (λ fault.
            fault ≢ SettingsFault.Memory →
            fault_at self.now.place members (required_list_key name.now most) ≡ Some fault) }
    {
        let Some(value) = self.get(name) else {
            return Err(self.place.fault(alloc, name, Flaw::Missing));
        };
        match list_in(value, most) {
            Ok(values) => Ok(values),
            Err(flaw) => Err(self.place.fault(alloc, name, flaw)),
        }
    }

    /// The members of a list of at least one, or none where it is absent. It may only be there
    /// where that is allowed.
    #[rattlefmt::skip]
    #[tactic(auto, unfolding(
        crate::specs::Kinds::fault_at,
        crate::specs::Kinds::setting_at,
        crate::specs::Kinds::optional_list_key
    ))]
    pub fn optional_list(
        &self,
        alloc: Global,
        name: &str,
        may: bool,
    ) -> Result<&'a [Value], SettingsFault>
        ensures ok { let members = table_view self.now.table.now in IfOk result (λ values.
            (fault_at self.now.place members (optional_list_key name.now may) ≡ None)
            × (map view values.now ≡ setting_at members (optional_list_key name.now may))) }
        ensures fault { let members = table_view self.now.table.now in IfErr result (λ fault.
            fault ≢ SettingsFault.Memory →
            fault_at self.now.place members (optional_list_key name.now may) ≡ Some fault) }
    {
        let Some(value) = self.get(name) else {
            return Ok(&[]);
        };
        match allowed_list_in(value, may) {
            Ok(values) => Ok(values),
            Err(flaw) => Err(self.place.fault(alloc, name, flaw)),
        }
    }
}
