//! The answers that are in a book when requests are located.
use dns_answers::{Answer, Records, Section};
use dns_message::{CharString, Kind, NaptrRecord, Question, SrvRecord};
use dns_name::Name;
use std::alloc::Global;
use std::sync::Arc;

/// A question, and its answer.
#[derive(Drop)]
pub struct Known {
    pub question: Question,
    pub answer: Arc<Answer>,
}

/// How many seconds an answer lives.
const LIFE: u32 = 3_600;

/// The most addresses that an answer has.
const MOST_ADDRESSES: u8 = 32;

/// How many addresses an answer has that is to have so many.
fn most(count: usize) -> u8 {
    u8::try_from(count)
        .unwrap_or(MOST_ADDRESSES)
        .min(MOST_ADDRESSES)
}

/// The records of a domain: its rules, the servers of the service of each rule, and the addresses
/// of each server.
#[derive(Clone, Copy)]
pub struct Domain<'a> {
    /// What its name begins with.
    pub label: &'a str,
    /// NAPTR services and the labels of their lists of servers, in the order of the rules.
    pub services: &'static [(&'static str, &'static str)],
    /// How many servers each list has. The last one of several is of a priority of its own.
    pub servers: usize,
    /// Whether each list has servers of its own, or all have the same.
    pub are_apart: bool,
    /// How many addresses of IPv4, and of IPv6, each server has.
    pub addresses: [usize; 2],
    /// How many more addresses of IPv4 the first server has.
    pub more: usize,
}

/// The name of a text.
fn name_of(alloc: Global, text: &str) -> Option<Name> {
    match Name::from_text(alloc, text) {
        Ok(name) => Some(name),
        Err(_) => None,
    }
}

/// An answer of records.
fn answer_of(alloc: Global, records: Records) -> Option<Arc<Answer>> {
    match Answer::new(records, LIFE) {
        Some(answer) => Arc::new(alloc, answer).ok(),
        None => None,
    }
}

/// A question for records of a name, with their answer.
fn answered(alloc: Global, name: &str, kind: Kind, records: Records) -> Option<Known> {
    let answer = answer_of(alloc, records)?;
    match name_of(alloc, name) {
        Some(name) => Some(Known {
            question: Question { name, kind },
            answer,
        }),
        None => None,
    }
}

/// Adds an answer.
fn push_known(all: &mut Vec<Known>, known: Option<Known>) -> Option<()> {
    match known {
        Some(known) => all.push(known).ok(),
        None => None,
    }
}

/// The octets of a text.
fn octets_of(alloc: Global, text: &str) -> Option<Vec<u8>> {
    Vec::from_slice(alloc, text.as_bytes()).ok()
}

/// The character string of a text.
fn string_of(alloc: Global, text: &str) -> Option<CharString> {
    let octets = octets_of(alloc, text)?;
    CharString::new(octets)
}

/// The strings of a rule.
#[derive(Drop)]
struct RuleStrings {
    flags: CharString,
    services: CharString,
    regexp: CharString,
}

/// The strings of a rule for a service.
fn strings_of(alloc: Global, service: &str) -> Option<RuleStrings> {
    let flags = string_of(alloc, "s")?;
    let services = string_of(alloc, service)?;
    let regexp = string_of(alloc, "")?;
    Some(RuleStrings {
        flags,
        services,
        regexp,
    })
}

/// A rule for a service, whose servers are listed under a name.
fn rule(alloc: Global, service: &str, target: &str) -> Option<NaptrRecord> {
    let replacement = name_of(alloc, target)?;
    let RuleStrings {
        flags,
        services,
        regexp,
    } = strings_of(alloc, service)?;
    Some(NaptrRecord {
        order: 10,
        preference: 50,
        flags,
        services,
        regexp,
        replacement,
    })
}

/// A server of a priority.
fn server_of(alloc: Global, priority: u16, target: &str) -> Option<SrvRecord> {
    Some(SrvRecord {
        priority,
        weight: 60,
        port: 5060,
        target: name_of(alloc, target)?,
    })
}

/// Addresses of IPv4, so many.
fn addresses_v4(alloc: Global, count: usize) -> Option<Records> {
    let mut all = Vec::new(alloc);
    for number in 0..most(count) {
        all.push([192, 0, 2, number]).ok()?;
    }
    Some(Records::V4(Section::from_vec(all)))
}

/// Addresses of IPv6, so many.
fn addresses_v6(alloc: Global, count: usize) -> Option<Records> {
    let mut all = Vec::new(alloc);
    for number in 0..most(count) {
        all.push([0, 0, 0, 0, 0, 0, 0, 0, 0, 0, 0, 0, 0, 0, 0, number])
            .ok()?;
    }
    Some(Records::V6(Section::from_vec(all)))
}

/// The question for so many addresses of IPv4 of a name, with their answer.
fn answered_v4(alloc: Global, name: &str, count: usize) -> Option<Known> {
    let records = addresses_v4(alloc, count)?;
    answered(alloc, name, Kind::A, records)
}

/// The question for so many addresses of IPv6 of a name, with their answer.
fn answered_v6(alloc: Global, name: &str, count: usize) -> Option<Known> {
    let records = addresses_v6(alloc, count)?;
    answered(alloc, name, Kind::Aaaa, records)
}

impl<'a> Domain<'a> {
    /// The name of the server of this number in the list of this number.
    fn server_name(&self, alloc: Global, list: usize, server: usize) -> Option<String> {
        let label = self.label;
        let list = if self.are_apart { list } else { 0 };
        format!(in alloc; "s{server}-{list}.{label}.example").ok()
    }

    /// Its own name.
    fn own_name(&self, alloc: Global) -> Option<String> {
        let label = self.label;
        format!(in alloc; "{label}.example").ok()
    }

    /// Its name with labels in front.
    fn name_behind(&self, alloc: Global, labels: &str) -> Option<String> {
        let label = self.label;
        format!(in alloc; "{labels}.{label}.example").ok()
    }

    /// The rule for a service, whose servers are listed under a label.
    fn rule(&self, alloc: Global, service: &str, list: &str) -> Option<NaptrRecord> {
        let target = self.name_behind(alloc, list)?;
        rule(alloc, service, target.as_str())
    }

    /// The rules for all services.
    fn all_rules(&self, alloc: Global) -> Option<Vec<NaptrRecord>> {
        let mut rules = Vec::new(alloc);
        for (service, list) in self.services {
            let rule = self.rule(alloc, service, list)?;
            rules.push(rule).ok()?;
        }
        Some(rules)
    }

    /// The answer that has the rules.
    fn rules(&self, alloc: Global) -> Option<Known> {
        let name = self.own_name(alloc)?;
        let rules = self.all_rules(alloc)?;
        let records = Records::Naptr(Section::from_vec(rules));
        answered(alloc, name.as_str(), Kind::Naptr, records)
    }

    /// The server of this number in the list of this number.
    fn server(&self, alloc: Global, list: usize, server: usize) -> Option<SrvRecord> {
        let is_last = server > 0 && server.saturating_add(1) == self.servers;
        let target = self.server_name(alloc, list, server)?;
        server_of(alloc, if is_last { 20 } else { 10 }, target.as_str())
    }

    /// All servers of the list of this number.
    fn all_servers(&self, alloc: Global, list: usize) -> Option<Vec<SrvRecord>> {
        let mut servers = Vec::new(alloc);
        for number in 0..self.servers {
            let server = self.server(alloc, list, number)?;
            servers.push(server).ok()?;
        }
        Some(servers)
    }

    /// The answer that has the servers of a list.
    fn list(&self, alloc: Global, at: usize, labels: &str) -> Option<Known> {
        let name = self.name_behind(alloc, labels)?;
        let servers = self.all_servers(alloc, at)?;
        let records = Records::Srv(Section::from_vec(servers));
        answered(alloc, name.as_str(), Kind::Srv, records)
    }

    /// How many addresses of IPv4 a server of a list has.
    fn count_v4(&self, server: usize) -> usize {
        let [v4, _] = self.addresses;
        let more = if server == 0 { self.more } else { 0 };
        v4.saturating_add(more)
    }

    /// Adds the addresses of the server of this number in the list of this number.
    fn push_addresses(
        &self,
        alloc: Global,
        all: &mut Vec<Known>,
        list: usize,
        server: usize,
    ) -> Option<()> {
        let name = self.server_name(alloc, list, server)?;
        let [_, v6] = self.addresses;
        push_known(
            all,
            answered_v4(alloc, name.as_str(), self.count_v4(server)),
        )?;
        push_known(all, answered_v6(alloc, name.as_str(), v6))
    }

    /// Adds the addresses of the domain itself: one of IPv4.
    fn push_own(&self, alloc: Global, all: &mut Vec<Known>) -> Option<()> {
        let name = self.own_name(alloc)?;
        push_known(all, answered_v4(alloc, name.as_str(), 1))
    }

    /// Adds the addresses of the servers of a list.
    fn push_servers(&self, alloc: Global, all: &mut Vec<Known>, list: usize) -> Option<()> {
        for server in 0..self.servers {
            self.push_addresses(alloc, all, list, server)?;
        }
        Some(())
    }

    /// The answer that has an address of the domain itself, alone.
    pub fn address(&self, alloc: Global) -> Option<Vec<Known>> {
        let mut all = Vec::new(alloc);
        self.push_own(alloc, &mut all)?;
        Some(all)
    }

    /// The answer that has the servers of its first list, alone.
    pub fn servers(&self, alloc: Global) -> Option<Vec<Known>> {
        let (_, labels) = self.services.first()?;
        let mut all = Vec::new(alloc);
        push_known(&mut all, self.list(alloc, 0, labels))?;
        Some(all)
    }

    /// Adds the servers of a list, and the addresses of these where they are its own.
    fn push_list(
        &self,
        alloc: Global,
        all: &mut Vec<Known>,
        at: usize,
        labels: &str,
    ) -> Option<()> {
        push_known(all, self.list(alloc, at, labels))?;
        if at == 0 || self.are_apart {
            self.push_servers(alloc, all, at)
        } else {
            Some(())
        }
    }

    /// Adds all its answers.
    fn push_all(&self, alloc: Global, all: &mut Vec<Known>) -> Option<()> {
        push_known(all, self.rules(alloc))?;
        self.push_own(alloc, all)?;
        for (at, (_, labels)) in self.services.iter().enumerate() {
            self.push_list(alloc, all, at, labels)?;
        }
        Some(())
    }

    /// All its answers.
    pub fn known(&self, alloc: Global) -> Option<Vec<Known>> {
        let mut all = Vec::new(alloc);
        self.push_all(alloc, &mut all)?;
        Some(all)
    }
}
