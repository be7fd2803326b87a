//! What the logs of the rules are to the queues.
ghost use Rattle.std.specs.Prelude.{◌≡◌, ◌++◌, ◌∷◌, [], List};
ghost use Rattle.mega_entry.specs.declared.content.Content.{Content};
ghost use Rattle.mega_rules.specs.Acting.{applied_logs};
ghost use Rattle.mega_rules.specs.Logs.{groups_of};
ghost use Rattle.mega_rules.specs.Operations.{Now};
ghost use Rattle.mega_queues.specs.Applied.{applied_of};
ghost use Rattle.mega_queues.specs.Boxes.{AreAll, logs_of};
ghost use Rattle.mega_queues.specs.Mail.{mail_of, no_mail, with_entry};

/// A pump picks among the applied logs, which are those of the groups with a decided position; no other group has
/// entries.
pub fn pumps_pick_among_applied_logs()
    ensures logs { (now : Now) → applied_logs now ≡ logs_of (applied_of now) (groups_of now.met) }
    ensures all { (now : Now) → AreAll (applied_of now) (groups_of now.met) }
{}

/// A mailbox that takes in the entries of a log one after another shows the mail of the log.
pub fn mailboxes_follow_logs()
    ensures begun { no_mail ≡ mail_of [] }
    ensures grown { (entries : List Content) (entry : Content) → with_entry entry (mail_of entries) ≡ mail_of (entries ++ entry ∷ []) }
{}
