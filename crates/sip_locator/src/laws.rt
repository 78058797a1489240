//! Laws of replies. A call of one does nothing; its contract states the law.
ghost use Rattle.std.specs.Prelude.{◌≡◌, ◌⊎◌, ℕ, List, None, Some};
ghost use Rattle.dns_answers.specs.Answers.{answer};
ghost use Rattle.dns_answers.specs.Replies.{reply_refusal};
ghost use Rattle.dns_answers.specs.Values.{AnswerValue};
ghost use Rattle.dns_answers.specs.declared.refusal.ReplyRefusal.{ReplyRefusal};
ghost use Rattle.dns_message.specs.Messages.{Begins};
ghost use Rattle.dns_message.specs.declared.message.Message.{Message};
ghost use Rattle.dns_message.specs.declared.question.Question.{Question};
ghost use Rattle.sip_selection.specs.Choice.{Resolution, need};
ghost use Rattle.sip_locator.specs.Replies.{Answers, Refuses};
ghost use Rattle.sip_locator.specs.declared.refusal.LocatorRefusal.{LocatorRefusal};
ghost use Rattle.sip_locator.specs.declared.refusal.LocatorRefusal.TheVariants as refusals;

use dns_message::law_one_message_in_front;

/// The message in front of the octets decides: what is taken is its answer, and a refusal is its
/// first fault, unless it is for want of memory.
pub fn law_messages_decide()
    ensures taken { (question : Question) (octets : List ℕ) (it : Message) (found : AnswerValue)
        → Begins octets it
        → Answers question octets found
        → (reply_refusal question it ≡ None) × (found ≡ answer question it) }
    ensures refused { (resolution : Resolution) (question : Question) (octets : List ℕ)
        (it : Message) (refusal : LocatorRefusal) → resolution ≡ need question → Begins octets it
        → Refuses resolution octets refusal
        → (refusal ≡ refusals.Memory) ⊎ ((fault : ReplyRefusal) × (refusal ≡ refusals.Reply fault)
        × (reply_refusal question it ≡ Some fault)) }
{
    law_one_message_in_front();
}
