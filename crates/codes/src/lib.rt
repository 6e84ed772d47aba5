// Lanes coded in numbers, for callers who cannot hold an enum: read off them and stored in them.
#![tactic(auto, unfolding(crate::specs::Rest::stages_to, crate::specs::Rest::scans_to, crate::specs::Queries::code_scan, crate::specs::Queries::scan_of, crate::specs::Queries::code_kind, crate::specs::Queries::kind_of, crate::specs::Queries::code_query, crate::specs::Queries::decode_query, crate::specs::Updaters::code_stage, crate::specs::Updaters::stage_of, crate::specs::Updaters::code_updater, crate::specs::Updaters::decode_updater, base::specs::Outcome::pick, queries::specs::Query::is_idle, stage::specs::Turn::is_idle))]

pub mod all_lanes;
pub mod query_lane;
pub mod update_lane;
