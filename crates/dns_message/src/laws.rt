//! Laws of messages. A call of one does nothing; its contract states the law.
ghost use Rattle.std.specs.Prelude.{◌≡◌, ◌↔◌, IsTrue, ◌≤◌, ◌++◌, ℕ, List, length, take};
ghost use Rattle.dns_message.specs.Fits.{MessageFits};
ghost use Rattle.dns_message.specs.Messages.{Spells};
ghost use Rattle.dns_message.specs.Questions.{same_question};
ghost use Rattle.dns_message.specs.Written.{plain};
ghost use Rattle.dns_message.specs.declared.message.Message.{Message};
ghost use Rattle.dns_message.specs.declared.question.Question.{Question};

use dns_name::{
    law_name_rests_before_its_end, law_one_name_at_an_offset, law_same_names_are_equal,
    law_written_name_is_read,
};

/// At most one message is in front of octets.
pub fn law_one_message_in_front()
    ensures { (bytes : List ℕ) (end end' : ℕ) (message message' : Message)
        → Spells (take end bytes) message
        → Spells (take end' bytes) message' → message ≡ message' }
{
    law_one_name_at_an_offset();
    law_name_rests_before_its_end();
}

/// A message that is written without pointers is read again, whatever follows it, where all is at
/// most 65,535 octets.
pub fn law_written_message_is_read()
    ensures { (message : Message) (back : List ℕ) → MessageFits message
        → length (plain message ++ back) ≤ 65535
        → Spells (take (length (plain message)) (plain message ++ back)) message }
{
    law_written_name_is_read();
}

/// `==` holds exactly of a question and itself.
pub fn law_same_questions_are_equal()
    ensures { (question other : Question) → IsTrue (same_question question other)
        ↔ (question ≡ other) }
{
    law_same_names_are_equal();
}
