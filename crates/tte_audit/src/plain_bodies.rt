//! What a record says that is of no event, by the words of its line. It is read exactly where each word is just what is
//! written for it.

ghost use Rattle.std.specs.{Fmt.signed_decimal, Prelude.{◌++◌, ◌∷◌, ◌≡◌, ◌≢◌, IfSome, None, [], codes, decimal, ℕ}};
ghost use Rattle.net_plan.specs.{Belonging.{HasDevice, device_name}, declared.ids.VlId.{VlId as VlIdValue}};
ghost use Rattle.{net_plan.specs.Ranges.IsInRange, sync_state.specs.declared.state.State.{State as StateValue}};
ghost use Rattle.net_plan.specs.declared.ids.{DeviceId.{DeviceId as DeviceIdValue}, LinkId.{LinkId as LinkIdValue}};
ghost use Rattle.tte_units.specs.declared.frames.members.Members.{Members as MembersValue};
ghost use Rattle.report_text.specs.{NoteLine.{passage_words, stream_words}, Ranges.IsSignedUnits};
ghost use Rattle.report_text.specs.NoteWords.{judgement_text, members_text, reason_words, state_text, why_text};
ghost use Rattle.report_text.specs.Ranges.{HasPassage, HasStream, IsCount, IsReasonInRange, IsShortCount};
ghost use Rattle.run_law.specs.declared.judgement.{Judgement.{Judgement as JudgementValue}, Why.{Why as WhyValue}};
ghost use Rattle.{run_law.specs.declared.judgement.Reason.{Reason as ReasonValue}, tte_audit.specs.Kinds.Tells};
ghost use Rattle.run_law.specs.declared.plain.bodies.PlainKind.{PlainKind as PlainValue};
ghost use Rattle.tte_units.specs.declared.units.Units.{Units as UnitsValue};
ghost use Rattle.run_law.specs.declared.plain.bodies.PlainKind.TheVariants as said;
ghost use Rattle.tte_audit.specs.declared.kind.KindWord.TheVariants as kinds;

use crate::kind::KindWord;
use crate::line_words::LineWords;
use crate::reasons::reason;
use net_plan::{DeviceId, LinkId, Network, VlId};
use run_law::plain::PlainKind;

// A control frame that arrives or leaves.
#[derive(Clone, Copy)]
struct Clocked {
    device: DeviceId,
    link: LinkId,
    cause: u64,
    clock: u64,
}

impl Clocked {
    fn arrived(self) -> PlainKind
        ensures { result ≡ said.Arrived self.device self.link self.cause self.clock }
    {
        PlainKind::Arrived {
            device: self.device,
            link: self.link,
            cause: self.cause,
            clock: self.clock,
        }
    }

    fn left(self) -> PlainKind
        ensures { result ≡ said.Left self.device self.link self.cause self.clock }
    {
        PlainKind::Left {
            device: self.device,
            link: self.link,
            cause: self.cause,
            clock: self.clock,
        }
    }
}

fn take_clocked(network: &Network, words: &mut LineWords) -> Option<Clocked>
    requires { IsInRange network.now }
    ensures is { (d : DeviceIdValue) (l : LinkIdValue) (cause clock : ℕ)
        → HasPassage network.now d l → IsCount cause → IsCount clock
        → words.old ≡ passage_words network.now d l cause ++ codes "clock" ∷ decimal clock ∷ [] → result ≢ None }
    ensures of_network { IfSome result (λ c. HasPassage network.now c.device c.link) }
    ensures range { IfSome result (λ c. IsCount c.cause × IsCount c.clock) }
    ensures text { IfSome result (λ c. words.old
        ≡ passage_words network.now c.device c.link c.cause ++ codes "clock" ∷ decimal c.clock ∷ []) }
{
    let device = words.device(network)?;
    let link = words.link(network)?;
    let cause = words.count()?;
    words.fixed("clock")?;
    let clock = words.count()?;
    words.end()?;
    Some(Clocked {
        device,
        link,
        cause,
        clock,
    })
}

// A frame of the schedule.
#[derive(Clone, Copy)]
struct Streamed {
    device: DeviceId,
    link: LinkId,
    cause: u64,
    vl: VlId,
    cycle: u32,
}

impl Streamed {
    fn sent(self) -> PlainKind
        ensures { result ≡ said.TtSent self.device self.link self.cause self.vl self.cycle }
    {
        PlainKind::TtSent {
            device: self.device,
            link: self.link,
            cause: self.cause,
            vl: self.vl,
            cycle: self.cycle,
        }
    }

    fn accepted(self) -> PlainKind
        ensures { result ≡ said.Accepted self.device self.link self.cause self.vl self.cycle }
    {
        PlainKind::Accepted {
            device: self.device,
            link: self.link,
            cause: self.cause,
            vl: self.vl,
            cycle: self.cycle,
        }
    }

    fn delivered(self) -> PlainKind
        ensures { result ≡ said.Delivered self.device self.link self.cause self.vl self.cycle }
    {
        PlainKind::Delivered {
            device: self.device,
            link: self.link,
            cause: self.cause,
            vl: self.vl,
            cycle: self.cycle,
        }
    }
}

fn take_streamed(network: &Network, words: &mut LineWords) -> Option<Streamed>
    requires { IsInRange network.now }
    ensures is { (d : DeviceIdValue) (l : LinkIdValue) (cause : ℕ) (v : VlIdValue) (cycle : ℕ)
        → HasStream network.now d l v → IsCount cause → IsShortCount cycle
        → words.old ≡ passage_words network.now d l cause ++ stream_words network.now v cycle → result ≢ None }
    ensures of_network { IfSome result (λ s. HasStream network.now s.device s.link s.vl) }
    ensures range { IfSome result (λ s. IsCount s.cause × IsShortCount s.cycle) }
    ensures text { IfSome result (λ s. words.old
        ≡ passage_words network.now s.device s.link s.cause ++ stream_words network.now s.vl s.cycle) }
{
    let device = words.device(network)?;
    let link = words.link(network)?;
    let cause = words.count()?;
    words.fixed("vl")?;
    let vl = words.vl(network)?;
    words.fixed("cycle")?;
    let cycle = words.short()?;
    words.end()?;
    Some(Streamed {
        device,
        link,
        cause,
        vl,
        cycle,
    })
}

fn permanent(network: &Network, words: &mut LineWords) -> Option<PlainKind>
    requires { IsInRange network.now }
    ensures is { (d : DeviceIdValue) (l : LinkIdValue) (cause : ℕ) (point : UnitsValue) (verdict : JudgementValue)
        → HasPassage network.now d l → IsCount cause → IsSignedUnits point
        → words.old ≡ passage_words network.now d l cause ++ codes "point" ∷ signed_decimal point.0
        ∷ judgement_text verdict ∷ [] → result ≢ None }
    ensures told { IfSome result (Tells network.now kinds.Permanent words.old) }
{
    let device = words.device(network)?;
    let link = words.link(network)?;
    let cause = words.count()?;
    words.fixed("point")?;
    let point = words.units()?;
    let verdict = words.judgement()?;
    words.end()?;
    Some(PlainKind::Permanent {
        device,
        link,
        cause,
        point,
        verdict,
    })
}

fn compressed(network: &Network, words: &mut LineWords) -> Option<PlainKind>
    requires { IsInRange network.now }
    ensures is { (d : DeviceIdValue) (opened at : UnitsValue) (cycle : ℕ) (m : MembersValue)
        (verdict : JudgementValue)
        → HasDevice network.now d → IsSignedUnits opened → IsSignedUnits at → IsShortCount cycle → IsShortCount m.0
        → words.old ≡ device_name network.now d ∷ codes "opened" ∷ signed_decimal opened.0
        ∷ codes "at" ∷ signed_decimal at.0 ∷ codes "cycle" ∷ decimal cycle
        ∷ codes "members" ∷ members_text m ∷ judgement_text verdict ∷ [] → result ≢ None }
    ensures told { IfSome result (Tells network.now kinds.Compressed words.old) }
{
    let device = words.device(network)?;
    words.fixed("opened")?;
    let opened = words.units()?;
    words.fixed("at")?;
    let at = words.units()?;
    words.fixed("cycle")?;
    let cycle = words.short()?;
    words.fixed("members")?;
    let members = words.members()?;
    let verdict = words.judgement()?;
    words.end()?;
    Some(PlainKind::Compressed {
        device,
        opened,
        at,
        cycle,
        members,
        verdict,
    })
}

fn sent(network: &Network, words: &mut LineWords) -> Option<PlainKind>
    requires { IsInRange network.now }
    ensures is { (d : DeviceIdValue) (cycle : ℕ) → HasDevice network.now d → IsShortCount cycle
        → words.old ≡ device_name network.now d ∷ codes "cycle" ∷ decimal cycle ∷ [] → result ≢ None }
    ensures told { IfSome result (Tells network.now kinds.Sent words.old) }
{
    let device = words.device(network)?;
    words.fixed("cycle")?;
    let cycle = words.short()?;
    words.end()?;
    Some(PlainKind::Sent { device, cycle })
}

fn corrected(network: &Network, words: &mut LineWords) -> Option<PlainKind>
    requires { IsInRange network.now }
    ensures is { (d : DeviceIdValue) (cycle : ℕ) (by adjustment : UnitsValue)
        → HasDevice network.now d → IsShortCount cycle → IsSignedUnits by → IsSignedUnits adjustment
        → words.old ≡ device_name network.now d ∷ codes "cycle" ∷ decimal cycle ∷ codes "by" ∷ signed_decimal by.0
        ∷ codes "adj" ∷ signed_decimal adjustment.0 ∷ [] → result ≢ None }
    ensures told { IfSome result (Tells network.now kinds.Corrected words.old) }
{
    let device = words.device(network)?;
    words.fixed("cycle")?;
    let cycle = words.short()?;
    words.fixed("by")?;
    let by = words.units()?;
    words.fixed("adj")?;
    let adjustment = words.units()?;
    words.end()?;
    Some(PlainKind::Corrected {
        device,
        cycle,
        by,
        adjustment,
    })
}

fn changed(network: &Network, words: &mut LineWords) -> Option<PlainKind>
    requires { IsInRange network.now }
    ensures is { (d : DeviceIdValue) (new : StateValue) (cause : ℕ) (y : WhyValue)
        → HasDevice network.now d → IsCount cause
        → words.old ≡ device_name network.now d ∷ state_text new ∷ decimal cause ∷ why_text y ∷ []
        → result ≢ None }
    ensures told { IfSome result (Tells network.now kinds.State words.old) }
{
    let device = words.device(network)?;
    let state = words.state()?;
    let cause = words.count()?;
    let why = words.why()?;
    words.end()?;
    Some(PlainKind::State {
        device,
        state,
        cause,
        why,
    })
}

fn lost(network: &Network, words: &mut LineWords) -> Option<PlainKind>
    requires { IsInRange network.now }
    ensures is { (d : DeviceIdValue) (l : LinkIdValue) (cause : ℕ) → HasPassage network.now d l → IsCount cause
        → words.old ≡ passage_words network.now d l cause → result ≢ None }
    ensures told { IfSome result (Tells network.now kinds.Lost words.old) }
{
    let device = words.device(network)?;
    let link = words.link(network)?;
    let cause = words.count()?;
    words.end()?;
    Some(PlainKind::Lost {
        device,
        link,
        cause,
    })
}

fn dropped(network: &Network, words: &mut LineWords) -> Option<PlainKind>
    requires { IsInRange network.now }
    ensures is { (d : DeviceIdValue) (l : LinkIdValue) (cause : ℕ) (r : ReasonValue)
        → HasPassage network.now d l → IsCount cause → IsReasonInRange r
        → words.old ≡ passage_words network.now d l cause ++ reason_words r → result ≢ None }
    ensures told { IfSome result (Tells network.now kinds.Dropped words.old) }
{
    let device = words.device(network)?;
    let link = words.link(network)?;
    let cause = words.count()?;
    let reason = reason(words)?;
    Some(PlainKind::Dropped {
        device,
        link,
        cause,
        reason,
    })
}

fn clock(network: &Network, words: &mut LineWords) -> Option<PlainKind>
    requires { IsInRange network.now }
    ensures is { (d : DeviceIdValue) (reading adjustment : UnitsValue) (last : StateValue)
        → HasDevice network.now d → IsSignedUnits reading → IsSignedUnits adjustment
        → words.old ≡ device_name network.now d ∷ codes "reading" ∷ signed_decimal reading.0
        ∷ codes "adj" ∷ signed_decimal adjustment.0 ∷ codes "state" ∷ state_text last ∷ [] → result ≢ None }
    ensures told { IfSome result (Tells network.now kinds.Clock words.old) }
{
    let device = words.device(network)?;
    words.fixed("reading")?;
    let reading = words.units()?;
    words.fixed("adj")?;
    let adjustment = words.units()?;
    words.fixed("state")?;
    let state = words.state()?;
    words.end()?;
    Some(PlainKind::Clock {
        device,
        reading,
        adjustment,
        state,
    })
}

/// What a record of the kind says, by the words behind that of the kind.
pub(crate) fn plain_of(
    network: &Network,
    kind: KindWord,
    words: &mut LineWords,
) -> Option<PlainKind>
    requires { IsInRange network.now }
    ensures is { (p : PlainValue) → Tells network.now kind words.old p → result ≢ None }
    ensures told { IfSome result (Tells network.now kind words.old) }
{
    match kind {
        KindWord::Arrived => Some(take_clocked(network, words)?.arrived()),
        KindWord::Permanent => permanent(network, words),
        KindWord::Compressed => compressed(network, words),
        KindWord::Sent => sent(network, words),
        KindWord::Corrected => corrected(network, words),
        KindWord::State => changed(network, words),
        KindWord::Left => Some(take_clocked(network, words)?.left()),
        KindWord::Lost => lost(network, words),
        KindWord::TtSent => Some(take_streamed(network, words)?.sent()),
        KindWord::Accepted => Some(take_streamed(network, words)?.accepted()),
        KindWord::Delivered => Some(take_streamed(network, words)?.delivered()),
        KindWord::Dropped => dropped(network, words),
        KindWord::Clock => clock(network, words),
    }
}
