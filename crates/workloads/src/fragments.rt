//! The fragments that texts are made of. Each `@` in one stands for a number of seven digits.

/// Blocks in the style.
pub static TIDY: &[&str] = &[
    r#"# How many instances of service @ run.
variable "service_@_count" {
  description = "Number of instances of service @"
  type        = number
  default     = 3

  validation {
    condition     = var.service_@_count > 0 && var.service_@_count <= 100
    error_message = "The count must be between 1 and 100."
  }
}

"#,
    r#"resource "aws_instance" "service_@" {
  count                  = var.service_@_count
  ami                    = data.aws_ami.ubuntu.id
  instance_type          = "t3.large"
  subnet_id              = module.vpc.private_subnets[count.index % 3]
  vpc_security_group_ids = [aws_security_group.service_@.id]
  monitoring             = true

  root_block_device {
    volume_type = "gp3"
    volume_size = @
    encrypted   = true
  }

  lifecycle {
    create_before_destroy = true
    ignore_changes        = [ami, user_data]
  }

  tags = merge(local.common_tags, {
    Name        = "service-@-${count.index}"
    Environment = var.environment
    Managed     = "terraform"
  })
}

"#,
    r#"resource "aws_security_group" "service_@" {
  name        = "service-@"
  description = "Traffic to service @"
  vpc_id      = module.vpc.vpc_id

  ingress {
    from_port   = 443
    to_port     = 443
    protocol    = "tcp"
    cidr_blocks = ["10.0.0.0/16", "10.1.0.0/16", "192.168.@.0/24"]
  }

  egress {
    from_port   = 0
    to_port     = 0
    protocol    = "-1"
    cidr_blocks = ["0.0.0.0/0"] # everywhere
  }
}

"#,
    r#"resource "aws_iam_policy" "access_@" {
  name = "access-@"
  policy = jsonencode({
    Version = "2012-10-17"
    Statement = [
      {
        Effect   = "Allow"
        Action   = ["s3:GetObject", "s3:PutObject", "s3:ListBucket"]
        Resource = "arn:aws:s3:::bucket-@/*"
      },
      {
        Effect    = "Deny"
        Action    = "s3:*"
        Resource  = "*"
        Condition = { Bool = { "aws:SecureTransport" = "false" } }
      },
    ]
  })
}

"#,
    r#"module "queue_@" {
  source  = "terraform-aws-modules/sqs/aws"
  version = "~> 4.0"

  name                       = "queue-@"
  visibility_timeout_seconds = 60
  message_retention_seconds  = 345600
  create_dlq                 = true
  tags                       = local.common_tags
}

"#,
    r#"locals {
  # By the number of instances.
  primary_@   = var.service_@_count > 1 ? "multi" : "single"
  addresses_@ = [for it in aws_instance.service_@ : it.private_ip if it.monitoring]
  by_zone_@   = { for it in aws_instance.service_@ : it.availability_zone => it.id... }
  names_@     = concat(local.base_names, [local.primary_@])
}

output "addresses_@" {
  description = "Addresses of service @"
  value       = local.addresses_@
}

"#,
    r#"resource "aws_launch_template" "worker_@" {
  name_prefix   = "worker-@-"
  image_id      = data.aws_ami.ubuntu.id
  instance_type = var.worker_type

  user_data = base64encode(<<-EOT
    #!/bin/bash
    set -euo pipefail
    hostnamectl set-hostname "worker-@"
    cat >/etc/service.conf <<CONF
    region = ${var.region}
    zone = ${local.zones["worker_@"]}
    CONF
    systemctl enable --now service
    EOT
  )
}

"#,
    r#"data "aws_iam_policy_document" "assume_@" {
  statement {
    actions = ["sts:AssumeRole"]

    principals {
      type        = "Service"
      identifiers = ["ec2.amazonaws.com", "ecs-tasks.amazonaws.com"]
    }
  }
}

// The role of service @.
resource "aws_iam_role" "service_@" {
  name               = "service-@"
  assume_role_policy = data.aws_iam_policy_document.assume_@.json
}

"#,
];

/// Blocks with blanks that aren't in the style.
pub static MESSY: &[&str] = &[
    r#"# How many instances of service @ run.
variable "service_@_count" {
description = "Number of instances of service @"
  type=number
   default   =  3

  validation {
  condition = var.service_@_count>0 && var.service_@_count<=100
    error_message = "The count must be between 1 and 100."
  }
}

"#,
    r#"resource "aws_instance" "service_@" {
    count = var.service_@_count
    ami = data.aws_ami.ubuntu.id
    instance_type = "t3.large"
    subnet_id = module.vpc.private_subnets[count.index%3]
    vpc_security_group_ids = [ aws_security_group.service_@.id ]
    monitoring = true

    root_block_device {
        volume_type = "gp3"
        volume_size = @
        encrypted = true
    }

    tags = merge(local.common_tags,{
        Name = "service-@-${count.index}"
        Environment = var.environment
    })
}

"#,
    r#"resource "aws_security_group" "service_@" {
        name = "service-@"
        vpc_id      = module.vpc.vpc_id
        ingress {
        from_port = 443
        to_port = 443
        protocol = "tcp"
        cidr_blocks = ["10.0.0.0/16","10.1.0.0/16","192.168.@.0/24"]   # inside
        }
}

"#,
    r#"resource "aws_iam_policy" "access_@" {
  name = "access-@"
  policy = jsonencode({
    Version: "2012-10-17",
    Statement: [
      {Effect: "Allow", Action: ["s3:GetObject","s3:PutObject"], Resource: "arn:aws:s3:::bucket-@/*"},
      {Effect: "Deny", Action: "s3:*", Resource: "*", Condition: {Bool: {"aws:SecureTransport": "false"}}},
    ]
  })
}

"#,
    r#"locals {
primary_@ = var.service_@_count>1 ? "multi":"single"
all_addresses_@ = [ for it in aws_instance.service_@: it.private_ip if it.monitoring ]
  names_@=concat(local.base_names,[local.primary_@]) # with its own
  script_@ = <<-EOT
    #!/bin/sh
    exec /opt/service --number @ --zone ${local.zones["worker_@"]}
  EOT
}

output "addresses_@" { value = local.all_addresses_@ }

"#,
];

/// Declarations; several of them have something to report.
pub static DECLARED: &[&str] = &[
    r#"# Zone @, by its number.
variable "zone_@" {
  type        = string
  description = "The zone."
}

// How large it is.
variable "size@" { default = 2 }

# What others read of it.
output "url_@" {
  description = "Where it is."
  value       = "x${var.zone_@}"
}

"#,
    r#"locals {
  name_@ = "zone-${var.size@}" # short
  tags_@ = [local.name_@, local.all[0]]
}

# As large as it was.
module "net_@" {
  source = "git::https://example.com/net.git?ref=v1"
  tags   = local.tags_@
}

"#,
    r#"# Asked for by the module above.
data "image" "base_@" {
  most_recent = true # the last
}

variable "Name-@" {}

output "first_@" {
  value = data.image.base_@.*.id
}

"#,
];

/// Lines that are mostly signs.
pub static SIGNS: &[&str] = &[
    "l@=[for k,v in{a=1,b=[1,2,{c=-d[@].e}]}:\"${k}-${v[0]*(@+x)}\"if!(v==null||k!=\"\")&&f(g(v...),!k)]\n",
    "o@={for i in[[],[1],[[2,@]]]:i=>x?y[z]:w.*.q...}\n",
];

/// Parts of one long line.
pub static PARTS: &[&str] = &["b@,", "\"c\",", "-d[@],", "{e=@},"];

/// Short lines, some of them with comments at their ends.
pub static SHORT: &[&str] = &[
    "n@=1\n",
    "n@=x\n",
    "m@=1#x\nlong_name_@=22#yy\n",
    "k@=[\"\"]\n",
];

/// Texts in other scripts, which aren't in the style.
pub static SCRIPTS: &[&str] = &[
    "variable \"名前_@\" {\n description=\"ここに値の説明を書きます。\"\n  type  =  string # 文字列\n}\n\n",
    "locals {\n 住所_@ = \"東京都千代田区@丁目\"\n  e\u{301}te\u{301}_@=\"👩‍👩‍👧 et cætera\"   # 家族\n}\n\n",
];

/// Lines that end in CR and LF.
pub static CARRIAGE: &[&str] = &[
    "# Service @.\r\nresource \"null_resource\" \"service_@\" {\r\n  triggers = {\r\n    always = timestamp()\r\n    number = @\r\n  }\r\n}\r\n\r\n",
    "output \"service_@\" {\r\n  value = null_resource.service_@.id\r\n}\r\n\r\n",
];

/// Heredocs with lines that are nearly their markers, and heredocs in their templates.
pub static HEREDOCS: &[&str] = &[
    "h@ = <<EOT\nEOT @\n EOTS\nEO\nEOT_@\n%{ if a@ }\nEOT}\n%{ endif }\nEOT\n",
    "i@ = <<A\n${<<B\n${<<C\nA @\nB @\nB C\nC\n}\nA B\nB\n}\nB B\nA\n",
    "j@ = <<-LONGMARKER\n  LONGMARKE\n    LONGMARKERS\n\tLONGMARKER @\n  LONGMARKER\n",
];

/// Deep brackets on one line and on many.
pub static DEEP: &[&str] = &[
    "p@=((((((((((((((((((((((((((((((((((((((((((((((((((((((((((((((((((((((((((((((((((((((((((((((((((((((((((((((((((((((((1))))))))))))))))))))))))))))))))))))))))))))))))))))))))))))))))))))))))))))))))))))))))))))))))))))))))))))))))))))))))\n",
    "q@=[[[[[[[[[[[[[[[[[[[[[[[[[[[[[[[[[[[[[[[[[[[[[[[[[[@]]]]]]]]]]]]]]]]]]]]]]]]]]]]]]]]]]]]]]]]]]]]]]]]]]\n",
    "r@={a={b={c={d={e={f={g={h={i=(\n[\n{\nj=@\n}\n]\n)}}}}}}}}}\n",
];
