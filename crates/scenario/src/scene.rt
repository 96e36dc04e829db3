// What a script is played on.
use crate::frames::{self, saturated};
use crate::player::Player;
use crate::record;
use crate::script::LINE_NUMBERS;
use crate::settings::Settings;
use crate::words::{Call, Word};
use drive::Drive;
use rules::Refusal;

// The largest medium that a scenario has.
const MEDIUM_SIZE: usize = 1024;

// The scenarios have no longer frame, and no longer reply.
const FRAME_SIZE: usize = 160;

// The longest key that a format is given.
const KEY_LIMIT: usize = 40;

// A drive with its medium, the last frame that was built, and the space for replies.
#[derive(Drop)]
pub struct Scene {
    pub drive: Drive,
    medium: [u8; MEDIUM_SIZE],
    frame: [u8; FRAME_SIZE],
    reply: [u8; FRAME_SIZE],
}

// The first n bytes; none where they are not all there.
fn start_of(bytes: &[u8], n: usize) -> &[u8] {
    bytes.get(..n).unwrap_or(&[])
}

impl Scene {
    // Until a line formats it, the drive is the one that a refused format leaves.
    pub fn new() -> Scene {
        Scene {
            drive: drive::format(&mut [], 0, &[], &[]).drive,
            medium: [0xaa; MEDIUM_SIZE],
            frame: [0; FRAME_SIZE],
            reply: [0; FRAME_SIZE],
        }
    }

    // The reply of so many bytes.
    pub fn reply(&self, length: usize) -> &[u8] {
        start_of(&self.reply, length)
    }

    // Formats as much of the medium as the settings say, with the line's first version, and a master key and a drive key of so
    // many bytes. There is no reply.
    fn format(
        &mut self,
        settings: &Settings,
        numbers: [u64; LINE_NUMBERS],
    ) -> Result<usize, Refusal> {
        let [first, master, key, ..] = numbers;
        let master = (master as usize).min(KEY_LIMIT);
        let key = (key as usize).min(KEY_LIMIT);
        let size = (settings.medium as usize).min(MEDIUM_SIZE);
        let formatted = drive::format(
            &mut self.medium[..size],
            saturated(first, u32::MAX),
            &[0; KEY_LIMIT][..master],
            &[1; KEY_LIMIT][..key],
        );
        self.drive = formatted.drive;
        formatted.answer?;
        Ok(0)
    }

    // Builds a call's frame. The next one has another nonce, unless a line says otherwise.
    fn build(&mut self, call: Call, player: &mut Player) {
        let key = player.signing_key(&self.drive);
        let line = player.line;
        let numbers = player.numbers;
        let settings = &mut player.settings;
        let length = frames::build(settings, call, line, numbers, &key, &mut self.frame);
        settings.length = length.unwrap_or(0) as u64;
        settings.count = settings.count.wrapping_add(1);
        settings.time = settings.time.wrapping_add(settings.pace);
    }

    // Puts the last frame to the gate, with as much of the medium and of the reply space lent as the settings say.
    fn put(&mut self, settings: &Settings) -> Result<usize, Refusal> {
        let size = (settings.medium as usize).min(MEDIUM_SIZE);
        let space = (settings.space as usize).min(FRAME_SIZE);
        let frame = start_of(&self.frame, settings.length as usize);
        let medium = &mut self.medium[..];
        let reply = &mut self.reply[..];
        drive::gate(
            &mut self.drive,
            &mut medium[..size],
            frame,
            settings.clock,
            &mut reply[..space],
        )
    }

    // Sets a byte of the frame, where it has it.
    fn set_byte(&mut self, at: u64, x: u64) {
        if let Some(byte) = self.frame.get_mut(at as usize) {
            *byte = saturated(x, u8::MAX);
        }
    }

    // Does what the player's line says. A call or a format answers how long its reply is, or its refusal.
    pub fn act(&mut self, player: &mut Player) -> Option<Result<usize, Refusal>> {
        let numbers = player.numbers;
        let [a, b, ..] = numbers;
        match player.word? {
            Word::Call(call) => {
                self.build(call, player);
                return Some(self.put(&player.settings));
            }
            Word::Again => return Some(self.put(&player.settings)),
            Word::Format => return Some(self.format(&player.settings, numbers)),
            Word::Damage => record::damage(&mut self.drive, numbers),
            Word::Need => record::set_need(&mut self.drive, numbers),
            Word::Byte => self.set_byte(a, b),
            Word::Keep => player.kept = record::key(&self.drive, a, b),
            _ => {}
        }
        None
    }
}
