ghost use Rattle.std.specs.Prelude.{◌≡◌, option_map};
ghost use Rattle.std.specs.List.{list_all};
ghost use Rattle.serde_json.specs.View.{view, items_view};
ghost use Rattle.pool_forms.specs.SettingsForms.{count_fields};
ghost use Rattle.pool_forms.specs.Ranges.{all_pass, each_passes, count_fits, counts_fit, keys_fit, shards_fit, byte_fits, bytes_fit, numbers_fit};

use crate::fields::is_below;
use serde_json::Value;

fn each_count_fits(config: &Value, names: &[&str]) -> bool
    ensures { result ≡ list_all (λ name. count_fits (view config.now) name.now) names.now }
{
    names
        .iter()
        .all(|&name| is_below(1 << 32, config.get(name)))
}

fn counts_in(config: &Value) -> bool
    ensures { result ≡ list_all (count_fits (view config.now)) count_fields }
{
    each_count_fits(
        config,
        &[
            "total_core_instances",
            "total_component_instances",
            "total_memories",
            "total_tables",
            "total_stacks",
            "total_gc_heaps",
            "max_memories_per_module",
            "max_tables_per_module",
            "max_core_instances_per_component",
            "max_memories_per_component",
            "max_tables_per_component",
            "max_unused_warm_slots",
        ],
    )
}

fn counts_fit(field: Option<&Value>) -> bool
    ensures { result ≡ counts_fit (option_map (λ v. view v.now) field.entry) }
{
    match field {
        Some(config) => counts_in(config),
        None => true,
    }
}

fn keys_fit(field: Option<&Value>) -> bool
    ensures { result ≡ keys_fit (option_map (λ v. view v.now) field.entry) }
{
    match field {
        Some(offered) => is_below(1 << 32, offered.get("keys")),
        None => true,
    }
}

fn shards_fit(value: &Value) -> bool
    ensures { result ≡ shards_fit (view value.now) }
{
    is_below(1 << 32, value.get("shards"))
}

fn byte_fits(command: &Value) -> bool
    ensures { result ≡ byte_fits (view command.now) }
{
    is_below(256, command.get("byte"))
}

fn each_byte_fits(commands: &[Value]) -> bool
    ensures { result ≡ list_all (λ command. byte_fits (view command)) commands.now }
{
    commands.iter().all(|command| byte_fits(command))
}

fn all_bytes_fit(commands: &[Value]) -> bool
    ensures { result ≡ all_pass byte_fits (items_view commands.now) }
{
    each_byte_fits(commands)
}

fn commands_fit(field: Option<&Value>) -> bool
    ensures { result ≡ each_passes byte_fits (option_map (λ v. view v.now) field.entry) }
{
    match field {
        None => true,
        Some(value) => match value.as_array() {
            Some(commands) => all_bytes_fit(commands.as_slice()),
            None => true,
        },
    }
}

fn bytes_fit(party: &Value) -> bool
    ensures { result ≡ bytes_fit (view party.now) }
{
    commands_fit(party.get("commands"))
}

fn each_party_fits(parties: &[Value]) -> bool
    ensures { result ≡ list_all (λ party. bytes_fit (view party)) parties.now }
{
    parties.iter().all(|party| bytes_fit(party))
}

fn all_parties_fit(parties: &[Value]) -> bool
    ensures { result ≡ all_pass bytes_fit (items_view parties.now) }
{
    each_party_fits(parties)
}

fn parties_fit(field: Option<&Value>) -> bool
    ensures { result ≡ each_passes bytes_fit (option_map (λ v. view v.now) field.entry) }
{
    match field {
        None => true,
        Some(value) => match value.as_array() {
            Some(parties) => all_parties_fit(parties.as_slice()),
            None => true,
        },
    }
}

/// Whether the types of their fields can hold all numbers of an input.
pub fn numbers_fit(value: &Value) -> bool
    ensures { result ≡ numbers_fit (view value.now) }
{
    shards_fit(value)
        && counts_fit(value.get("config"))
        && keys_fit(value.get("offered"))
        && parties_fit(value.get("parties"))
}
