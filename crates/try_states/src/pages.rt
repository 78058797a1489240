//! The examples of the crates' pages, line by line: that of a crate is in the file with its name in
//! front.
//!
//! A line of an example stands in its file as it stands on the page, in the same order
//! (`tools/check-pages`). Where a whole example would take long to prove, its lines are in several
//! functions.
mod answer_cache_page;
mod answers;
mod dns_answers_page;
mod dns_asker_page;
mod dns_message_page;
mod dns_name_page;
mod dns_queries_page;
mod dns_zone_page;
mod ip_text_page;
mod pending_list_page;
mod resolution_paths_page;
mod resolver_file_page;
mod rolling_cache_page;
mod sip_fault_page;
mod sip_locator_page;
mod sip_options_page;
mod sip_resolver_page;
mod sip_response_page;
mod sip_selection_page;
mod sip_uri_page;
mod sip_worker_page;
mod srv_choice_page;
