// The frame of a quad read: its command and the dummy bytes after it.
ghost use Rattle.std.specs.Prelude.{◌≤◌};

#[derive(Clone, Copy)]
pub struct QuadFrame {
    pub bytes: [u8; 16],
    pub length: usize,
    pub ghost fits: { length ≤ 16 },
}

impl QuadFrame {
    ghost use Rattle.quad.specs.Frames.{Frames};

    // At most eight dummy bytes, after as much of the command as there is room for.
    pub fn new(command: &[u8], dummies: u8) -> QuadFrame
        ensures { Frames command.now dummies result }
    {
        let dummy = (dummies as usize).min(8);
        let command_len = command.len().min(16 - dummy);
        let mut frame = [0u8; 16];
        frame[..command_len].copy_from_slice(&command[..command_len]);
        QuadFrame {
            bytes: frame,
            length: command_len + dummy,
        }
    }
}
